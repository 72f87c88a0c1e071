// The tests of a table's rules that fall silent over so few rows.
ghost use Rattle.std.specs.Prelude.{◌≡◌, length};
ghost use Rattle.table.specs.Checked.{checked};
ghost use Rattle.table.specs.Silent.{silent_tests, silent_answer, list_after_answer};

use table::silent::silent_nodes;
use words::refusal::Refusal;

// The node numbers of the tests that fall silent over `d` rows, in table order, into the list, which may be longer.
pub fn silent_tests(t: &[u8], d: u64, list: &mut [u64]) -> Result<usize, Refusal>
    ensures value { result ≡ silent_answer (checked t.now) (silent_tests t.now d) (length list.old) }
    ensures list_after { list.new ≡ list_after_answer result (silent_tests t.now d) list.old }
{
    silent_nodes(t, d, list)
}
