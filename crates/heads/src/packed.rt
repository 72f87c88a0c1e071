// The header's words.
ghost use Rattle.std.specs.Prelude.{◌≡◌, ◌≤◌, length};
ghost use Rattle.words.specs.Limits.{state_words};
ghost use Rattle.records.specs.StateWords.{words_of};
ghost use Rattle.heads.specs.Laws.Packed.{head_words};

use records::settings::Settings;
use records::state::State;
use words::limits::STATE_WORDS;
use words::places;

// `WDP` and version 1, where they stand in the first word.
pub const HEAD_MARK: u64 = 87 + 256 * 68 + 65536 * 80 + 4294967296;

// The header's words, of a state's: of a number its lowest bytes, as many as it has in the image.
pub(crate) fn pack(w: &[u64], slots: u64, depth: u64, held: u64) -> [u64; 17]
    requires { state_words ≤ length w.now }
    ensures { result ≡ head_words slots depth held w.now }
{
    [
        HEAD_MARK + 16777216 * (slots % 256) + 281474976710656 * (depth % 65536),
        w[places::BARS_SEEN] % 4294967296 + 4294967296 * (held % 4294967296),
        w[places::ORDER] % 256
            + 256 * (w[places::ORDER_KIND] % 256)
            + 65536 * (w[places::ENTERED] % 256)
            + 4294967296 * (w[places::ENTRY_BAR] % 4294967296),
        w[places::ORDER_DELAY],
        w[places::CASH],
        w[places::QTY],
        w[places::ENTRY_PRICE],
        w[places::ENTRY_TIME],
        w[places::ENTRY_FEE],
        w[places::FEES_PAID],
        w[places::EXTREME],
        w[places::LAST_TIME],
        w[places::LAST_CLOSE],
        w[places::ORDER_LEVEL],
        w[places::ORDER_LIMIT],
        w[places::OPEN_FUNDING],
        w[places::OPEN_WORST],
    ]
}

// The header's words, of a state.
pub fn head_words(s: Settings, t: State, held: usize) -> [u64; 17]
    ensures { result ≡ head_words s.slots s.depth held (words_of t) }
{
    let mut words = [0u64; STATE_WORDS];
    records::state_words::put_state(&mut words, t);
    pack(&words, s.slots as u64, s.depth as u64, held as u64)
}
