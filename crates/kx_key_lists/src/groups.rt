//! The group that an index or a value names.
ghost use Rattle.std.specs.Prelude.{◌≡◌, ◌<◌, IfOk};
ghost use Rattle.std.specs.Result.{result_ok};
ghost use Rattle.kx_key_lists.specs.Groups.{group_at};
ghost use Rattle.kx_merge.specs.Numbers.{number_faults};
ghost use Rattle.kx_merge.specs.declared.numbers.Counted.TheVariants.{Group};
ghost use Rattle.kx_merge.specs.Reports.{Reports};

use kx_basics::MOST_GROUPS;
use kx_lex::Fault;
use kx_merge::Counted;
use kx_parse::Expression;

/// The group that an expression of a file names, counted from 0.
///
/// # Errors
/// `BadValue` at the expression where it isn't a number without a sign or `GroupN`; `GroupRange` there at a group outside
/// of 1 to 32.
pub fn read_group(file: u32, expression: &Expression) -> Result<u8, Fault>
    ensures value { result_ok result ≡ group_at expression.now }
    ensures within { IfOk result (λ group. group < MOST_GROUPS) }
    ensures faults { Reports result (number_faults file Group expression.now) }
{
    let number = Counted::Group.read(file, expression)?;
    Ok(number - 1)
}
