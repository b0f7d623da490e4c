ghost use Rattle.root_laws.specs.Legal.{HaveLegalStories, IsLegalRun};
ghost use Rattle.root_laws.specs.Lines.{events_of};
ghost use Rattle.root_laws.specs.Runs.{lines_of, opening_of, printed_of, root_lines};
ghost use Rattle.root_laws.specs.Steps.{AreOpened, Branch, GrowByLine, opened_at, roots_after};
ghost use Rattle.root_laws.specs.Worlds.{Worlds};
ghost use Rattle.std.specs.Prelude.{◌≡◌, ℕ, Some};
ghost use Rattle.scripts.specs.Spelling.{IsScript};
ghost use Rattle.scripts.specs.declared.slots.Ensemble.TheVariants.{Slot};
ghost use Rattle.scripts.specs.declared.script.RootScript.{RootScript};

/// Where the run of each ensemble is legal, the run of the script is: each history of a slot and of a routed
/// key is legal over the calls and the printed answers with the numbers of the script, and all answers that
/// say with which view a slot is open say it of its one opening.
pub fn root_runs_are_legal()
    ensures { (worlds : Worlds) (s : RootScript) → IsScript s → HaveLegalStories worlds s → IsLegalRun worlds s }
{}

/// The run of a script goes line by line, over worlds that do: what was printed, which slots opened, and the
/// events of each ensemble are what the lines make them, one after another.
pub fn root_runs_go_line_by_line()
    ensures printed { (worlds : Worlds) (s : RootScript) → IsScript s → GrowByLine worlds → printed_of worlds s ≡ (roots_after worlds s).printed }
    ensures root { (worlds : Worlds) (s : RootScript) → IsScript s → GrowByLine worlds → events_of (root_lines s) ≡ (roots_after worlds s).root }
    ensures slots { (worlds : Worlds) (s : RootScript) → IsScript s → GrowByLine worlds → (slot : ℕ) → opening_of worlds s (Slot slot) ≡ opened_at ((roots_after worlds s).slots slot) }
    ensures branches { (worlds : Worlds) (s : RootScript) → IsScript s → GrowByLine worlds
        → (slot : ℕ) (branch : Branch) → (roots_after worlds s).slots slot ≡ Some branch
        → events_of (lines_of worlds s (Slot slot)) ≡ branch.events }
    ensures opened { (worlds : Worlds) (s : RootScript) → IsScript s → GrowByLine worlds → AreOpened worlds s (roots_after worlds s).opened }
{}
