// The theorems.
ghost use Rattle.std.specs.Prelude.{ℕ, List};
ghost use Rattle.rules.specs.Rules.{AcceptedExactly};
ghost use Rattle.rules.specs.Local.{PageLocal, PageStands, OpeningLocal};

// A page is accepted exactly if it meets the rules of the format.
pub fn rules_are_checked()
    ensures { (bs : List ℕ) (page : ℕ) → AcceptedExactly bs page }
{}

// A page depends on its extents, and its opening on the header too.
pub fn page_is_local()
    ensures apart { PageLocal }
    ensures stands { PageStands }
    ensures opening { OpeningLocal }
{}
