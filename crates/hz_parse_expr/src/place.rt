ghost use Rattle.std.specs.Prelude.{◌≡◌};
ghost use Rattle.hz_tree.specs.trees.Places as places;

use hz_tree::Tree;

/// The place of a tree's first token.
pub fn place(tree: &Tree<'_>) -> usize
    ensures { result ≡ places.place tree.now }
{
    match tree {
        Tree::Script { at, .. }
        | Tree::Function { at, .. }
        | Tree::Inner { at, .. }
        | Tree::Body { at, .. }
        | Tree::Lexical { at, .. }
        | Tree::Var { at, .. }
        | Tree::Bind { at, .. }
        | Tree::Block { at, .. }
        | Tree::Empty { at }
        | Tree::Debugger { at }
        | Tree::If { at, .. }
        | Tree::DoWhile { at, .. }
        | Tree::While { at, .. }
        | Tree::ForDeclared { at, .. }
        | Tree::ForBinds { at, .. }
        | Tree::ForLeft { at, .. }
        | Tree::ForExpr { at, .. }
        | Tree::Continue { at, .. }
        | Tree::Break { at, .. }
        | Tree::Return { at, .. }
        | Tree::Throw { at, .. }
        | Tree::Switch { at, .. }
        | Tree::Case { at, .. }
        | Tree::Default { at, .. }
        | Tree::Try { at, .. }
        | Tree::Catch { at, .. }
        | Tree::Label { at, .. }
        | Tree::Expression { at, .. }
        | Tree::Comma { at, .. }
        | Tree::Assign { at, .. }
        | Tree::Yield { at, .. }
        | Tree::Cond { at, .. }
        | Tree::Binary { at, .. }
        | Tree::Unary { at, .. }
        | Tree::Postfix { at, .. }
        | Tree::Left { at, .. }
        | Tree::NewTarget { at }
        | Tree::New { at, .. }
        | Tree::Dot { at, .. }
        | Tree::Index { at, .. }
        | Tree::Args { at, .. }
        | Tree::Optional { at, .. }
        | Tree::Spread { at, .. }
        | Tree::This { at }
        | Tree::Identifier { at, .. }
        | Tree::Null { at }
        | Tree::Truth { at, .. }
        | Tree::Number { at, .. }
        | Tree::OctalNumber { at }
        | Tree::Text { at, .. }
        | Tree::Parentheses { at, .. }
        | Tree::Template { at, .. }
        | Tree::Array { at, .. }
        | Tree::Hole { at }
        | Tree::Object { at, .. }
        | Tree::Shorthand { at, .. }
        | Tree::Property { at, .. }
        | Tree::Method { at, .. }
        | Tree::Getter { at, .. }
        | Tree::Setter { at, .. }
        | Tree::WordKey { at, .. }
        | Tree::TextKey { at, .. }
        | Tree::NumberKey { at, .. }
        | Tree::OctalKey { at }
        | Tree::ComputedKey { at, .. } => *at,
    }
}
