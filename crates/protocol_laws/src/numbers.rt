ghost use Rattle.std.specs.Prelude.{◌≡◌, ◌↔◌, ◌<◌, ℕ};
ghost use Rattle.ens_base.specs.Epochs.{IsEpochBelow, IsVersionBelow};
ghost use Rattle.ens_base.specs.declared.epoch.Epoch.{Epoch};
ghost use Rattle.ens_base.specs.declared.epoch.Version.{Version};
ghost use Rattle.register_model.specs.Orders.{rank};
ghost use Rattle.protocol_laws.specs.Numbers.{epoch_number, IsEpoch, IsVersion};
ghost use Rattle.protocol_laws.specs.Objects.{epoch_of};
ghost use Rattle.protocol_laws.specs.Book.{version_of};

/// Epochs are ordered as their numbers, and versions as their ranks. Number and rank determine
/// epoch and version. The epoch of a rank is the number of its version's epoch.
pub fn numbers_tell()
    ensures epochs { (a b : Epoch) → IsEpoch a → IsEpoch b → (IsEpochBelow a b ↔ (epoch_number a < epoch_number b)) }
    ensures versions { (a b : Version) → IsVersion a → IsVersion b → (IsVersionBelow a b ↔ (rank a < rank b)) }
    ensures version { (v : Version) → IsVersion v → version_of (rank v) ≡ v }
    ensures rank { (n : ℕ) → 0 < n → rank (version_of n) ≡ n }
    ensures epoch { (v : Version) → IsVersion v → epoch_of (rank v) ≡ epoch_number v.epoch }
    ensures within { (n : ℕ) → IsVersion (version_of n) }
{}
