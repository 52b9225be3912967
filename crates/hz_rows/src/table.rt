ghost use Rattle.hz_tree.specs.grammar.Table.{step};
ghost use Rattle.hz_rows.specs.Pushed.{Pushed};

use crate::stack::Stack;
use crate::stop::Stop;
use crate::{
    declarations, expressions, functions, heads, operators, primaries, properties, statements,
};
use hz_tree::{Look, Nonterminal};

/// Expands a nonterminal that was taken from the stack, where the next two tokens are as in `look`. The rows are
/// those of ECMA-262's syntactic grammar (13 to 16), without the parts that `OutsideKind` lists.
///
/// - `Ok`: the right-hand side of the nonterminal's row lies on the stack, its first symbol on top.
/// - `Refused`: no right-hand side begins with these tokens. The cause is the row's, and the stack is as it was.
/// - `Memory`: there is a right-hand side, and no memory for it. What lies on the stack then is left open.
pub fn expand(stack: &mut Stack, nonterminal: Nonterminal, look: Look) -> Result<(), Stop>
    ensures { Pushed (step nonterminal look) result stack.old stack.new }
{
    match nonterminal {
        Nonterminal::Script => statements::script_row(stack),
        Nonterminal::Items(context) => declarations::items_row(stack, context, look.one),
        Nonterminal::Item(context) => declarations::item_row(stack, context, look.one, look.two),
        Nonterminal::Statement(context) => statements::statement_row(stack, context, look),
        Nonterminal::Block(context) => statements::block_row(stack, context),
        Nonterminal::Binds(word, context) => declarations::binds_row(stack, word, context),
        Nonterminal::Bind(word, context) => declarations::bind_row(stack, word, context),
        Nonterminal::MoreBinds(word, context) => {
            declarations::more_binds_row(stack, word, context, look.one)
        }
        Nonterminal::Initial(word, context) => {
            declarations::initial_row(stack, word, context, look.one)
        }
        Nonterminal::Bound(role) => declarations::bound_row(stack, role, look),
        Nonterminal::Semi => statements::semi_row(stack, look),
        Nonterminal::LooseSemi => statements::loose_semi_row(stack, look.one),
        Nonterminal::Else(context) => statements::else_row(stack, context, look.one),
        Nonterminal::Label(jump) => statements::label_row(stack, jump, look),
        Nonterminal::ReturnValue(context) => statements::return_value_row(stack, context, look),
        Nonterminal::ThrowValue(context) => statements::throw_value_row(stack, context, look),
        Nonterminal::Clauses(context, has_default) => statements::clauses_row(
            stack,
            context,
            has_default,
            look.one,
        ),
        Nonterminal::Handlers(context) => statements::handlers_row(stack, context, look),
        Nonterminal::CatchClause(context) => statements::catch_clause_row(stack, context),
        Nonterminal::CatchName => statements::catch_name_row(stack, look.one),
        Nonterminal::Finally(context) => statements::finally_row(stack, context, look.one),
        Nonterminal::ForOpen => heads::for_open_row(stack, look.one),
        Nonterminal::Head(context) => heads::head_row(stack, context, look),
        Nonterminal::DeclaredHead(word, context) => {
            heads::declared_head_row(stack, word, context, look.one)
        }
        Nonterminal::LeftHead(context) => heads::left_head_row(stack, context, look.one),
        Nonterminal::OptionalExpr(context) => heads::optional_expr_row(stack, context, look.one),
        Nonterminal::Expr(context) => expressions::expr_row(stack, context),
        Nonterminal::ExprRest(listed, context) => {
            expressions::expr_rest_row(stack, listed, context, look.one)
        }
        Nonterminal::Operation(loosest, context) => {
            operators::operation_row(stack, loosest, context, look)
        }
        Nonterminal::Tails(tailed, loosest, context) => {
            operators::tails_row(stack, tailed, loosest, context, look)
        }
        Nonterminal::Rests(loosest, tightest, context) => {
            operators::rests_row(stack, loosest, tightest, context, look)
        }
        Nonterminal::ArrowSign => expressions::arrow_sign_row(stack, look),
        Nonterminal::ArrowBody(context) => expressions::arrow_body_row(stack, context, look.one),
        Nonterminal::YieldValue(context) => expressions::yield_value_row(stack, context, look),
        Nonterminal::OptionalTail(context) => primaries::optional_tail_row(
            stack, context, look.one,
        ),
        Nonterminal::Word => primaries::word_row(stack, look),
        Nonterminal::Members(context) => primaries::members_row(stack, context, look.one),
        Nonterminal::NewArgs(context) => primaries::new_args_row(stack, context, look.one),
        Nonterminal::Args(context) => primaries::args_row(stack, context),
        Nonterminal::Arguments(context) => primaries::arguments_row(stack, context, look.one),
        Nonterminal::MoreArguments(context) => primaries::more_arguments_row(
            stack, context, look.one,
        ),
        Nonterminal::Argument(context) => primaries::argument_row(stack, context, look.one),
        Nonterminal::Primary(context) => primaries::primary_row(stack, context, look),
        Nonterminal::TemplateRest(context) => primaries::template_rest_row(stack, context, look),
        Nonterminal::Elements(context) => primaries::elements_row(stack, context, look.one),
        Nonterminal::MoreElements(context) => primaries::more_elements_row(
            stack, context, look.one,
        ),
        Nonterminal::Props(context) => properties::props_row(stack, context, look.one),
        Nonterminal::MoreProps(context) => properties::more_props_row(stack, context, look.one),
        Nonterminal::Prop(context) => properties::prop_row(stack, context, look),
        Nonterminal::ShorthandEnd => properties::shorthand_end_row(stack, look.one),
        Nonterminal::KeyRest(context) => properties::key_rest_row(stack, context, look),
        Nonterminal::Key(context) => properties::key_row(stack, context, look),
        Nonterminal::OwnName => functions::own_name_row(stack, look.one),
        Nonterminal::Params => functions::params_row(stack),
        Nonterminal::Parameters => functions::parameters_row(stack, look.one),
        Nonterminal::MoreParameters => functions::more_parameters_row(stack, look.one),
        Nonterminal::ParameterEnd => functions::parameter_end_row(stack, look.one),
        Nonterminal::Body(generator) => functions::body_row(stack, generator),
    }
}
