// Laws of the layout. Each is a function with nothing to do, whose contract is the law.
ghost use Rattle.std.specs.Prelude.{List};
ghost use Rattle.hz_tree.specs.sources.Refusals.{function_scopes};
ghost use Rattle.hz_tree.specs.tokens.Text.{Text};
ghost use Rattle.hz_tree.specs.trees.FunctionScopes.{FunctionScopes};
ghost use Rattle.hz_resolve.specs.Laws.{AreApart, AreInside, AreNumbered, AreOfFunctions, AreOrdered, AreThere};
ghost use Rattle.hz_resolve.specs.Laws.{FunctionsStand, HaveFirst, HaveParents, ScriptStandsInNone};
ghost use Rattle.hz_resolve.specs.Laws.{IsOutermost, WaysEnd, WaysGoOn};
ghost use Rattle.hz_resolve.specs.LawsOfPlaces.{ArePlacesOfNames, DeclaredAreHere, GlobalsAreUndeclaredOrVars};
ghost use Rattle.hz_resolve.specs.LawsOfPlaces.{HavePlaces, IsLayout};
ghost use Rattle.hz_resolve.specs.LawsOfPlaces.{RegistersAreLocal, SlotsAreFound};

/// Law: each scope stands among all scopes at the place of its number, which no other scope has. The scopes are those
/// of the functions and no others.
#[tactic(auto, using(crate::proofs::lemmas::Numbers::number_is_place, crate::proofs::lemmas::Numbers::stands, crate::proofs::lemmas::Numbers::is_placed, crate::proofs::lemmas::Numbers::one_number))]
pub fn numbers_are_places()
    ensures numbered { (fs : List FunctionScopes) → AreNumbered fs }
    ensures there { (fs : List FunctionScopes) → AreThere fs }
    ensures of_functions { (fs : List FunctionScopes) → AreOfFunctions fs }
    ensures apart { (fs : List FunctionScopes) → AreApart fs }
{}

/// Law: each function of a source but the script stands in a scope of a function before it. Its first scope has none of
/// its scopes round it, and each other one has one before it.
#[tactic(auto, using(crate::proofs::lemmas::Nesting::functions_stand, crate::proofs::lemmas::Nesting::script_stands, crate::proofs::lemmas::Nesting::have_first, crate::proofs::lemmas::Nesting::have_parents))]
pub fn functions_nest()
    ensures functions { (source : Text) → FunctionsStand (function_scopes source) }
    ensures script { (source : Text) → ScriptStandsInNone (function_scopes source) }
    ensures first { (source : Text) → HaveFirst (function_scopes source) }
    ensures parents { (source : Text) → HaveParents (function_scopes source) }
{}

/// Law: the scopes of a source nest. Round each stands one with a smaller number, of the same function or of one
/// before; round scope 0, which is the script's, stands none. The scopes of a function stand before those of the next.
#[tactic(auto, using(crate::proofs::lemmas::Nesting::scope_inside, crate::proofs::lemmas::Nesting::script_outermost, crate::proofs::lemmas::Nesting::functions_ordered))]
pub fn scopes_nest()
    ensures inside { (source : Text) → AreInside (function_scopes source) }
    ensures outermost { (source : Text) → IsOutermost (function_scopes source) }
    ensures ordered { (fs : List FunctionScopes) → AreOrdered fs }
{}

/// Law: the way outwards from a scope, on which names are looked for (ECMA-262, 9.1.2.1), is that scope and then the way
/// outwards from the scope round it.
#[tactic(auto, using(crate::proofs::lemmas::LayoutLaws::ways_on, crate::proofs::lemmas::LayoutLaws::ways_end))]
pub fn ways_lead_outwards()
    ensures on { (source : Text) → WaysGoOn (function_scopes source) }
    ensures end { (source : Text) → WaysEnd (function_scopes source) }
{}

/// Law: there is a place for each name of each scope of each function, and for nothing else.
#[tactic(auto, using(crate::proofs::lemmas::Listed::place_listed, crate::proofs::lemmas::Listed::only_listed))]
pub fn each_listed_name_has_a_place()
    ensures places { (fs : List FunctionScopes) → HavePlaces fs }
    ensures names { (fs : List FunctionScopes) → ArePlacesOfNames fs }
{}

/// Law: where a name has a slot, some scope on the way outwards declares it, and none before that one. The hops are the
/// scopes with slots that are passed before it, and the slot is one of its slots, which has this name.
pub fn slot_is_found()
    ensures { (source : Text) → SlotsAreFound (function_scopes source) }
{}

/// Law: where a name has a register, a scope of the same function declares it, or it is the function's own `arguments`
/// (ECMA-262, 10.2.11).
pub fn register_is_its_functions()
    ensures { (source : Text) → RegistersAreLocal (function_scopes source) }
{}

/// Law: a name is found in its scope where that declares it: it is global if the script declares it as a var, and has
/// else a slot with 0 hops, or a register.
#[tactic(auto, using(crate::proofs::lemmas::Listed::listed_declared))]
pub fn declared_name_is_found_here()
    ensures { (fs : List FunctionScopes) → DeclaredAreHere fs }
{}

/// Law: where a name is global (ECMA-262, 9.1.1.4), the script declares it as a var and no scope on the way before the
/// script's declares it, or no scope on the way declares it at all.
pub fn global_is_undeclared_or_script_var()
    ensures { (source : Text) → GlobalsAreUndeclaredOrVars (function_scopes source) }
{}

/// Law: all of these hold of the layout of a source.
pub fn layout_keeps_laws()
    ensures { (source : Text) → IsLayout (function_scopes source) }
{}
