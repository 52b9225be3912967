ghost use Rattle.std.specs.Prelude.{◌≡◌, ◌++◌, [], OnOk, reverse};
ghost use Rattle.hz_tree.specs.grammar.Classes as spec;
ghost use Rattle.hz_cursor.specs.Marks.{dropped, innermost_is, is_round_bracket};

use crate::mark::Mark;
use hz_list::Memory;
use hz_tree::{Bracket, Bracketing, Class};
use std::alloc::Global;
use std::marker::Model;

/// The brackets that are open behind some tokens, and the marks of these tokens.
#[derive(Drop)]
pub struct Tally {
    /// The innermost one last.
    open: Vec<Bracket>,

    marks: Vec<Mark>,

    /// Whether the last token is a `)` that closed its `(`.
    closed: bool,
}

impl Model for Tally {
    ghost use Rattle.std.specs.Prelude.{reverse};
    ghost use Rattle.hz_cursor.specs.Tally.{Tallied};

    ghost Value = { Tallied };

    ghost view = { λ t. record { closed = t.closed; opened = reverse t.open.items; marks = t.marks.items } };
}

impl Tally {
    ghost use Rattle.std.specs.Prelude.{◌≡◌, ◌++◌, [], false, IfOk, OnOk};
    ghost use Rattle.hz_cursor.specs.Marks.{marks_from};
    ghost use Rattle.hz_cursor.specs.Tally.{followed, closed_before, with_bracket};

    pub fn new(alloc: Global) -> Tally
        ensures { result ≡ record { closed = false; opened = []; marks = [] } }
    {
        Tally {
            open: Vec::new(alloc),
            marks: Vec::new(alloc),
            closed: false,
        }
    }

    /// The marks, where no token is left. Brackets that are open stay so for good.
    pub fn into_marks(self) -> Result<Vec<Mark>, Memory>
        ensures { IfOk result
            (λ marks. marks.items ≡ self.marks ++ marks_from self.closed self.opened []) }
    {
        let mut tally = self;
        tally.answer(false)?;
        let Tally {
            mut open,
            mut marks,
            closed: _,
        } = tally;
        drop_all(&mut open, &mut marks)?;
        Ok(marks)
    }

    /// Goes past a token of the class.
    pub fn follow(&mut self, class: Class) -> Result<(), Memory>
        ensures { OnOk result (self.new ≡ followed class self.old) }
    {
        self.answer(matches!(class, Class::Arrow))?;
        self.apply(bracketing(class))
    }

    /// Tells the `)` before a token whether that token is `=>`.
    fn answer(&mut self, arrow: bool) -> Result<(), Memory>
        ensures { OnOk result (self.new ≡ closed_before arrow self.old) }
    {
        if self.closed {
            self.marks.push(Mark::Closes(arrow))?;
        }
        Ok(())
    }

    fn apply(&mut self, does: Bracketing) -> Result<(), Memory>
        ensures { OnOk result (self.new ≡ with_bracket does self.old) }
    {
        self.closed = false;
        match does {
            Bracketing::Opens(bracket) => {
                if is_round(bracket) {
                    self.marks.push(Mark::Opens)?;
                }
                self.open.push(bracket)?;
            }
            Bracketing::Closes(bracket) => {
                if is_innermost(&self.open, bracket) {
                    let _ = self.open.pop();
                    self.closed = is_round(bracket);
                } else {
                    drop_all(&mut self.open, &mut self.marks)?;
                }
            }
            Bracketing::Reopens => {
                if !is_innermost(&self.open, Bracket::Hole) {
                    drop_all(&mut self.open, &mut self.marks)?;
                }
            }
            Bracketing::Ends => drop_all(&mut self.open, &mut self.marks)?,
            Bracketing::Keeps => {}
        }
        Ok(())
    }
}

fn is_round(bracket: Bracket) -> bool
    ensures { result ≡ is_round_bracket bracket }
{
    matches!(bracket, Bracket::Round)
}

#[tactic(auto, unfolding(hz_tree::specs::grammar::Classes::same_bracket))]
fn is_innermost(opened: &Vec<Bracket>, bracket: Bracket) -> bool
    ensures { result ≡ innermost_is bracket (reverse opened.now.items) }
{
    match opened.last() {
        Some(innermost) => bracket == *innermost,
        None => false,
    }
}

/// Leaves all brackets open for good.
fn drop_all(opened: &mut Vec<Bracket>, marks: &mut Vec<Mark>) -> Result<(), Memory>
    ensures marks { OnOk result
        (marks.new.items ≡ marks.old.items ++ dropped (reverse opened.old.items)) }
    ensures opened { OnOk result (opened.new.items ≡ []) }
{
    while let Some(bracket) = opened.pop() {
        if is_round(bracket) {
            marks.push(Mark::Closes(false))?;
        }
    }
    Ok(())
}

/// What a token of the class does to the brackets that are open.
fn bracketing(class: Class) -> Bracketing
    ensures { result ≡ spec.bracketing class }
{
    match class {
        Class::LeftParen => Bracketing::Opens(Bracket::Round),
        Class::RightParen => Bracketing::Closes(Bracket::Round),
        Class::LeftBracket => Bracketing::Opens(Bracket::Square),
        Class::RightBracket => Bracketing::Closes(Bracket::Square),
        Class::LeftBrace => Bracketing::Opens(Bracket::Curly),
        Class::RightBrace => Bracketing::Closes(Bracket::Curly),
        Class::TemplateHead => Bracketing::Opens(Bracket::Hole),
        Class::TemplateMiddle => Bracketing::Reopens,
        Class::TemplateTail => Bracketing::Closes(Bracket::Hole),
        Class::End
        | Class::Malformed
        | Class::BigInt
        | Class::NumberForm
        | Class::PrivateName
        | Class::IdentifierEscape
        | Class::HtmlComment
        | Class::Character => Bracketing::Ends,
        _ => Bracketing::Keeps,
    }
}
