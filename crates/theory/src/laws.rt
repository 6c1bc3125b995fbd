// The laws above the definitions, each asked for by a contract.
ghost use Rattle.std.specs.Prelude.{ℕ, ◌+◌, ◌≤◌, List, length};
ghost use Rattle.kinds.specs.Kind.{Kind};
ghost use Rattle.locks.specs.Circuit.{Circuit};
ghost use Rattle.theory.specs.Groups.{GroupLaws};
ghost use Rattle.theory.specs.Messages.{MessageLaws};
ghost use Rattle.theory.specs.Store.{PlaceLaws, PutLaw};
ghost use Rattle.theory.specs.Keeper.{Keeper};
ghost use Rattle.theory.specs.History.{ToldLaw};
ghost use Rattle.theory.specs.Verdict.{VerdictLaw};
ghost use Rattle.theory.specs.Rules.{RulesLaw};
ghost use Rattle.theory.specs.Figures.{FigureLaw};
ghost use Rattle.theory.specs.Remembering.{Remembers};

// Groups, messages and the store's places: read as written, written as read, apart.
pub fn bytes_stand()
    ensures groups { (K : Kind) → GroupLaws K }
    ensures messages { (K : Kind) (l : Circuit (List ℕ)) → MessageLaws K l }
    ensures places { (L n : ℕ) → PlaceLaws L n }
    ensures writes { (s : List ℕ) (a : ℕ) (x : List ℕ) → a + length x ≤ length s → PutLaw s a x }
{}

// Verify accepts exactly when the messages are well-formed and the checks of the two opened branches (Figure 6) hold.
pub fn verdict_stands()
    ensures { VerdictLaw }
{}

// What a history tells is what stands in the buffers.
pub fn told_stands()
    ensures { (k : Keeper) → ToldLaw k }
{}

// Which condition each fault of each call stands for.
pub fn rules_stand()
    ensures { RulesLaw }
{}

// Every wire of every branch, and of the plain run, by its gate's equation (Figure 4).
pub fn figures_stand()
    ensures { FigureLaw }
{}

// After any history the keeper says what its accepted promises' own values give.
pub fn remembering_stands()
    ensures { Remembers }
{}
