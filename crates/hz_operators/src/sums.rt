// `+` (ECMA-262, 13.8.1).
ghost use Rattle.std.specs.Prelude.{◌≡◌, []};
ghost use Rattle.hz_value.specs.Numbers.{sum_of};
ghost use Rattle.hz_value.specs.operators.Arithmetic.{add, add_primitives, is_text, join_texts, on_numbers};
ghost use Rattle.hz_operators.specs.Outcomes.{content_of, Means, MeansText};
ghost use Rattle.hz_operators.specs.Sums.{sum_content};

use crate::contents::Content;
use crate::conversions::{expect_primitive, push_text};
use crate::halt::TextHalt;
use crate::numbers::{NumberOperator, on_numbers};
use hz_value::Safe;
use std::alloc::Global;

fn is_text(content: &Content<'_>) -> bool
    ensures { result ≡ is_text (content_of content.now) }
{
    matches!(content, Content::Text(_))
}

/// The texts of two values joined.
fn join(
    alloc: Global,
    u: &Content<'_>,
    v: &Content<'_>,
    text: &mut Vec<u16>,
) -> Result<Option<Safe>, TextHalt>
    requires { text.old.items ≡ [] }
    ensures { MeansText (λ number. sum_content number text.new.items) result
        (join_texts (content_of u.now) (content_of v.now)) }
{
    push_text(alloc, text, u)?;
    push_text(alloc, text, v)?;
    Ok(None)
}

fn add_primitives(
    alloc: Global,
    u: &Content<'_>,
    v: &Content<'_>,
    text: &mut Vec<u16>,
) -> Result<Option<Safe>, TextHalt>
    requires { text.old.items ≡ [] }
    ensures { MeansText (λ number. sum_content number text.new.items) result
        (add_primitives (content_of u.now) (content_of v.now)) }
{
    if is_text(u) || is_text(v) {
        return join(alloc, u, v, text);
    }
    let sum = on_numbers(NumberOperator::Sum, u, v)?;
    Ok(Some(sum))
}

/// `u + v`: where one of them is a text the texts are joined in `text`, else it is the sum of the numbers.
pub fn add(
    alloc: Global,
    u: &Content<'_>,
    v: &Content<'_>,
    text: &mut Vec<u16>,
) -> Result<Option<Safe>, TextHalt>
    requires { text.old.items ≡ [] }
    ensures { MeansText (λ number. sum_content number text.new.items) result
        (add (content_of u.now) (content_of v.now)) }
{
    expect_primitive(u)?;
    expect_primitive(v)?;
    add_primitives(alloc, u, v, text)
}
