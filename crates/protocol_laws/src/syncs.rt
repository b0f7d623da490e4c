ghost use Rattle.std.specs.Prelude.{◌≡◌, ℕ, Bool, true};
ghost use Rattle.ens_base.specs.Lists.{◌∈◌};
ghost use Rattle.ens_base.specs.Views.{last_view};
ghost use Rattle.quorums.specs.Quorums.{is_majority};
ghost use Rattle.protocol_laws.specs.Objects.{Map, Objects, IsSynced};
ghost use Rattle.protocol_laws.specs.Versions.{IsSource, is_solid};

/// Either ending of a sync gives what the guards of its steps ask. A sync may end if a majority of
/// the old view are sources, as its trusted members are; or if all of the old view answered, those
/// whose trees were never reverted are sources, and they are a majority.
pub fn syncs_may_end()
    ensures majority { (o : Objects) (d : ℕ) (merged : Map) (sources : ℕ → Bool)
        → is_majority sources (last_view (o.ledger.views d)) ≡ true
        → ((q : ℕ) → q ∈ last_view (o.ledger.views d) → sources q ≡ true → IsSource o d merged q)
        → IsSynced o d merged }
    ensures full_view { (o : Objects) (d : ℕ) (merged : Map)
        → is_majority (is_solid o) (last_view (o.ledger.views d)) ≡ true
        → ((q : ℕ) → q ∈ last_view (o.ledger.views d) → is_solid o q ≡ true → IsSource o d merged q)
        → IsSynced o d merged }
{}
