// The stores of a record's words.
ghost use Rattle.std.specs.Prelude.{◌≡◌, map};
ghost use Rattle.lists.specs.Lists.{up_from};
ghost use Rattle.bank_rules.specs.Stores.{stored};
ghost use Rattle.ring_rules.specs.Ring.{record_store};

use sheet_rules::RecordArea;

// Stores the words of a record's bytes as the record at a place. Apart from `store_run` of meter, its like: the
// one body is three lines, and each of the two promises would still need its own proof by its own stores.
#[tactic(auto, using(lists::proofs::Walks::up_on, lists::proofs::Walks::up_end), unfolding(bank_rules::specs::Stores::stored))]
pub(crate) fn store_record(records: RecordArea, place: u16, ring: &mut [u8], bytes: &[u8])
    ensures { ring.new ≡ stored ring.old (map (record_store records place bytes.now) (up_from 0 records.words)) }
{
    let count = records.words as usize;
    let first = 2 + (place as usize) * count;
    for k in 0..count {
        let word = words::word_at(bytes, 2 * k);
        words::store_word(ring, 2 * (first + k), word);
    }
}
