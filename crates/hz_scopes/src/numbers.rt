ghost use Rattle.std.specs.Prelude.{◌≡◌, IfOk};

use hz_list::Memory;

/// A number of a scope or the place of a use as it is stored. Memory for more of them is never there.
pub fn stored_number(number: usize) -> Result<u32, Memory>
    ensures { IfOk result (λ stored. stored ≡ number) }
{
    if number > 4294967295 {
        return Err(Memory);
    }
    Ok(number as u32)
}
