// The month starts that the rule gives, beside the table that the book uses.
ghost use Rattle.std.specs.Prelude.{◌≡◌, true};

use crate::month_starts;
use calendar::first_of;

// Whether the numbers that `month_starts` works out are the table's entries, one by one. They always are; nothing calls this.
#[tactic(auto, using(rules::proofs::Ranges::get_d_list_to))]
pub fn agrees_with_table() -> bool
    ensures { result ≡ true }
{
    let starts = month_starts();
    starts
        .iter()
        .enumerate()
        .all(|(number, start)| *start == first_of(number))
}
