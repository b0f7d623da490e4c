ghost use Rattle.std.specs.Prelude.{◌≡◌, ◌↔◌, true};
ghost use Rattle.wire_frames.specs.EnsBase.{Epoch, IsEpochBelow};
ghost use Rattle.wire_frames.specs.StoredFormats.{Fact, IsNewer};
ghost use Rattle.phase_rows.specs.Orders.{is_below, is_same, is_newer};

/// The tests of the rows decide the orders of epochs and facts.
pub fn tests_are_the_orders()
    ensures below { (a b : Epoch) → ((is_below a b ≡ true) ↔ IsEpochBelow a b) }
    ensures same { (a b : Epoch) → ((is_same a b ≡ true) ↔ (a ≡ b)) }
    ensures newer { (f g : Fact) → ((is_newer f g ≡ true) ↔ IsNewer f g) }
{}
