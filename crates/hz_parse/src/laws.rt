//! Laws of what symbols and rows in hand lead to. Each is a function with nothing to do, whose contract is the law.

ghost use Rattle.std.specs.Prelude.{◌≡◌, ◌+◌, ℕ, Bool, true, false, List, [], ◌∷◌, ◌++◌, All};
ghost use Rattle.hz_tree.specs.declared.class.Class.{Class};
ghost use Rattle.hz_tree.specs.declared.index.FunctionInfo.{FunctionInfo};
ghost use Rattle.hz_tree.specs.declared.nonterminal.Nonterminal.{Nonterminal};
ghost use Rattle.hz_tree.specs.declared.outside.BadKind.{BadKind};
ghost use Rattle.hz_tree.specs.declared.signal.Signal.TheVariants.{Enter};
ghost use Rattle.hz_tree.specs.declared.symbol.Symbol.{Symbol};
ghost use Rattle.hz_tree.specs.declared.symbol.Symbol.TheVariants.{Take, Read, Tell};
ghost use Rattle.hz_tree.specs.grammar.Look.{Terminal, look};
ghost use Rattle.hz_tree.specs.grammar.Symbols.{Parts, Value};
ghost use Rattle.hz_tree.specs.grammar.Table.{step, pushes, fails};
ghost use Rattle.hz_tree.specs.reading.Reading.{Got, Stuck, read_all, reads, takes};
ghost use Rattle.hz_cuts.specs.Cuts.{cut_parts};
ghost use Rattle.hz_cuts.specs.Rows.{is_enter, some_symbol};
ghost use Rattle.hz_own.specs.Known.{Known};
ghost use Rattle.hz_own.specs.Owned.{Owned, counted_from, owns, taken, unless_open};
ghost use Rattle.hz_parse.specs.Asked.{Told, turned};
ghost use Rattle.hz_parse.specs.Leads.{Leads, Reaches, calm, is_mark, mark_symbol, no_marks, opened_last};
ghost use Rattle.hz_parts.specs.declared.mark.Mark.{Mark};
ghost use Rattle.hz_parts.specs.declared.parts.Parts.{Parts as Stacks};
ghost use Rattle.hz_parts.specs.Makes.{MakesRow, row_of};
ghost use Rattle.hz_parts.specs.Values.{push_parts, push_seen, seen_token};
ghost use Rattle.hz_stands.specs.Nodes.{part_nodes};

/// Law: symbols that are read lead to what their parts, in which functions are left out, make of the stacks; so many
/// of their tokens are own ones.
#[tactic(auto, using(crate::proofs::LeadsLaws::symbols_lead))]
pub fn readings_lead()
    ensures { (functions : List FunctionInfo) (last : List Terminal) (whole : Stacks) (right : List Symbol)
        (ts rest : List Terminal) (vs : Parts Value right) (cs : Parts Owned right) (p : Stacks) →
        no_marks right ≡ true → some_symbol is_enter right ≡ false → calm false right ≡ true →
        read_all reads right ts ≡ Got vs rest → read_all owns right ts ≡ Got cs rest → All (Known functions) (part_nodes right vs) →
        Reaches last whole rest (push_parts false right (cut_parts functions right vs) p) →
        Leads functions (Known functions) (Reaches last whole) false false right [] ts p (counted_from false right cs) }
{}

/// Law: a nonterminal gives way to the symbols of its row, behind which its mark comes up. Where the whole is read, no
/// row refuses. Of an arrow it has to be told whether one begins, where a `(` stands ahead.
#[tactic(auto, using(crate::proofs::LeadsLaws::leads_pushes, crate::proofs::LeadsLaws::leads_no_refusal))]
pub fn rows_lead()
    ensures pushes { (functions : List FunctionInfo) (last : List Terminal) (whole : Stacks) (opened : Bool) (m : Nonterminal)
        (arrow : Bool) (right more : List Symbol) (marks : List Mark) (ts : List Terminal) (p : Stacks) (own : ℕ) →
        Told m (look ts) arrow → step m (turned (look ts) arrow) ≡ pushes right →
        Leads functions (Known functions) (Reaches last whole) false opened (Read m ∷ more) marks ts p own →
        Leads functions (Known functions) (Reaches last whole) false opened (right ++ mark_symbol ∷ more)
        (record { nonterminal = m; look = turned (look ts) arrow } ∷ marks) ts p own }
    ensures refuses { (functions : List FunctionInfo) (last : List Terminal) (whole : Stacks) (opened : Bool) (m : Nonterminal)
        (arrow : Bool) (cause : BadKind) (more : List Symbol) (marks : List Mark) (ts : List Terminal) (p : Stacks)
        (own : ℕ) → Told m (look ts) arrow → step m (turned (look ts) arrow) ≡ fails cause →
        Leads functions (Known functions) (Reaches last whole) false opened (Read m ∷ more) marks ts p own → ⊥ }
{}

/// Law: a token that the grammar takes is a part, and an own one where no function is open. Where the whole is read, no
/// token misfits.
#[tactic(auto, using(crate::proofs::LeadsLaws::leads_take, crate::proofs::LeadsLaws::leads_no_misfit))]
pub fn tokens_lead()
    ensures takes { (functions : List FunctionInfo) (last : List Terminal) (whole : Stacks) (opened : Bool) (wanted : Class)
        (x : Terminal) (more : List Symbol) (marks : List Mark) (ts rest : List Terminal) (p : Stacks) (own : ℕ) →
        is_mark wanted ≡ false → takes wanted ts ≡ Got x rest →
        Leads functions (Known functions) (Reaches last whole) false opened (Take wanted ∷ more) marks ts p own →
        (others : ℕ) × ((own ≡ unless_open opened (taken wanted) + others)
        × Leads functions (Known functions) (Reaches last whole) false opened more marks rest (push_seen (seen_token x) p) others) }
    ensures misfits { (functions : List FunctionInfo) (last : List Terminal) (whole : Stacks) (opened : Bool) (wanted : Class)
        (cause : BadKind) (more : List Symbol) (marks : List Mark) (ts us : List Terminal) (p : Stacks) (own : ℕ) →
        is_mark wanted ≡ false → takes wanted ts ≡ Stuck cause us →
        Leads functions (Known functions) (Reaches last whole) false opened (Take wanted ∷ more) marks ts p own → ⊥ }
{}

/// Law: the mark that comes up makes its row's value of the parts on top.
#[tactic(auto, using(crate::proofs::LeadsLaws::leads_make))]
pub fn marks_lead()
    ensures { (functions : List FunctionInfo) (last : List Terminal) (whole : Stacks) (opened : Bool) (mark : Mark)
        (more : List Symbol) (marks : List Mark) (ts : List Terminal) (p q : Stacks) (own : ℕ) →
        MakesRow mark.nonterminal (row_of functions mark) p q →
        Leads functions (Known functions) (Reaches last whole) false opened (mark_symbol ∷ more) (mark ∷ marks) ts p own →
        Leads functions (Known functions) (Reaches last whole) false opened more marks ts q own }
{}

/// Law: where a function is entered, it is passed over: behind it the symbols go on that stand behind its own.
#[tactic(auto, using(crate::proofs::LeadsLaws::leads_behind))]
pub fn functions_are_passed()
    ensures { (functions : List FunctionInfo) (last : List Terminal) (whole : Stacks) (opened : Bool) (more : List Symbol)
        (marks : List Mark) (ts : List Terminal) (p : Stacks) (own : ℕ)
        (l : Leads functions (Known functions) (Reaches last whole) false opened (Tell Enter ∷ more) marks ts p own) →
        Leads functions (Known functions) (Reaches last whole) false false l.behind marks l.rest p own }
{}
