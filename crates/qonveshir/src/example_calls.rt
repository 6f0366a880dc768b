// The least example.
ghost use Rattle.std.specs.Prelude.{◌≡◌, length};
ghost use Rattle.reader.specs.Brought.{simply};
ghost use Rattle.example.specs.Call.{example_of, output_of};
ghost use Rattle.example.specs.Demands.{DemandedOf};
ghost use Rattle.qonveshir.specs.Example.{example_in, example_left, ExampleDemandedIn};
ghost use Rattle.qonveshir.specs.Shown.{applied_shown};

use crate::{Written, applied_shown, edition_of, none_written};

// Writes the least record of at most so many bytes that satisfies a pattern.
#[unsafe(no_mangle)]
pub extern "C" fn qonveshir_example(
    table: &[u8],
    pattern: &[u8],
    size: u32,
    allowance: u32,
    output: &mut [u8],
) -> Written
    ensures is { result ≡ applied_shown (example_of (simply table.now) pattern.now size allowance (length output.old)) }
    ensures contents { output.new ≡ output_of (simply table.now) pattern.now size allowance output.old }
    ensures demand { DemandedOf (simply table.now) pattern.now size allowance output.old output.new }
{
    applied_shown(example::example(table, pattern, size, allowance, output))
}

// The same in an edition, up to class.
#[unsafe(no_mangle)]
pub extern "C" fn qonveshir_example_in(
    edition: u32,
    table: &[u8],
    classes: &[u8],
    pattern: &[u8],
    size: u32,
    allowance: u32,
    output: &mut [u8],
) -> Written
    ensures is { result ≡ example_in edition table.now classes.now pattern.now size allowance (length output.old) }
    ensures contents { output.new ≡ example_left edition table.now classes.now pattern.now size allowance output.old }
    ensures demand { ExampleDemandedIn edition table.now classes.now pattern.now size allowance output.old output.new }
{
    let Some(edition) = edition_of(edition) else {
        return none_written();
    };
    applied_shown(example::example_in(edition, table, classes, pattern, size, allowance, output))
}
