// What an answer tells besides its number, stored in the results that a C program lends. A result for which no value is told
// is not touched.
ghost use Rattle.std.specs.Prelude.{◌≡◌, [], ◌∷◌, get_or};
ghost use Rattle.tree.specs.Told.{refusal_told, bare_told, got_told, inserted_told, prefixed_told, sharing_told};
ghost use Rattle.tree.specs.Told.{stepped_told, counted_told, written_told};
ghost use Rattle.host.specs.Host.{given, GivesTwo, over_last, over_flagged, HoldTwo, HoldThree};
ghost use Rattle.host.specs.Few.{Few};

use tree::{Answer, Counted, Got, Inserted, Prefixed, Refusal, Sharing, Stepped, Written};

// The first value of a refusal, if it has one.
fn store_value(refusal: Refusal, to: &mut usize)
    ensures { to.new ≡ get_or (refusal_told refusal).values 0 to.old }
{
    if let Some(n) = refusal.value() {
        *to = n;
    }
}

// How many nodes were looked at is told with 0 and with 3, so the last result of a search is stored with both.
pub fn store_got(answer: Answer<Got>, number: &mut u64, looked: &mut usize)
    requires { Few 1 answer }
    ensures { let due = over_last (got_told answer).values (number.old ∷ looked.old ∷ []) in
        HoldTwo due number.new looked.new }
{
    match answer {
        Ok(got) => {
            *number = got.number.0;
            *looked = got.looked.0;
        }
        Err(refusal) => store_value(refusal, looked),
    }
}

// Whether insert found an old number is told only where it is done.
pub fn store_inserted(
    answer: Answer<Inserted>,
    had_old: &mut u32,
    old: &mut u64,
    looked: &mut usize,
)
    requires { Few 0 answer }
    ensures { let results = had_old.old ∷ old.old ∷ looked.old ∷ [] in
        let due = over_flagged (inserted_told answer).values results in
        HoldThree due had_old.new old.new looked.new }
{
    let Ok(inserted) = answer else {
        return;
    };
    *looked = inserted.looked.0;
    match inserted.old {
        Some(number) => {
            *had_old = 1;
            *old = number.0;
        }
        None => *had_old = 0,
    }
}

pub fn store_prefixed(
    answer: Answer<Prefixed>,
    prefix_length: &mut usize,
    number: &mut u64,
    looked: &mut usize,
)
    requires { Few 1 answer }
    ensures { let results = prefix_length.old ∷ number.old ∷ looked.old ∷ [] in
        let due = over_last (prefixed_told answer).values results in
        HoldThree due prefix_length.new number.new looked.new }
{
    match answer {
        Ok(prefixed) => {
            *prefix_length = prefixed.length;
            *number = prefixed.number.0;
            *looked = prefixed.looked.0;
        }
        Err(refusal) => store_value(refusal, looked),
    }
}

pub fn store_sharing(answer: Answer<Sharing>, shared_length: &mut usize, looked: &mut usize)
    requires { Few 1 answer }
    ensures { let due = over_last (sharing_told answer).values (shared_length.old ∷ looked.old ∷ []) in
        HoldTwo due shared_length.new looked.new }
{
    match answer {
        Ok(sharing) => {
            *shared_length = sharing.length;
            *looked = sharing.looked.0;
        }
        Err(refusal) => store_value(refusal, looked),
    }
}

// The length is that of the key given, or of the one that the output is too short for.
pub fn store_stepped(answer: Answer<Stepped>, key_length: &mut usize, number: &mut u64)
    requires { Few 1 answer }
    ensures { let told = stepped_told answer in
        GivesTwo told key_length.old number.old key_length.new number.new }
{
    match answer {
        Ok(step) => {
            *key_length = step.length;
            *number = step.number.0;
        }
        Err(refusal) => store_value(refusal, key_length),
    }
}

pub fn store_counted(answer: Answer<Counted>, keys: &mut usize, nodes: &mut usize)
    requires { Few 0 answer }
    ensures { let told = counted_told answer in
        GivesTwo told keys.old nodes.old keys.new nodes.new }
{
    if let Ok(counted) = answer {
        *keys = counted.keys;
        *nodes = counted.nodes;
    }
}

// The lengths written, or those that the outputs are too short for.
pub fn store_written(answer: Answer<Written>, tree_length: &mut usize, numbers_length: &mut usize)
    ensures { let told = written_told answer in
        GivesTwo told tree_length.old numbers_length.old tree_length.new numbers_length.new }
{
    match answer {
        Ok(lengths) | Err(Refusal::ImageShort(lengths)) => {
            *tree_length = lengths.bytes;
            *numbers_length = lengths.numbers;
        }
        Err(refusal) => store_value(refusal, tree_length),
    }
}

// Where in the image the fault is: told with the refusals that speak of a record, or of what is behind the last.
pub fn store_loaded(answer: Answer<()>, offset: &mut usize)
    ensures { offset.new ≡ given (bare_told answer) 0 offset.old }
{
    if let Err(refusal) = answer {
        store_value(refusal, offset);
    }
}
