// The fields of a word, by name. Every 64-bit number is taken: bits above D47 are neither looked at nor changed.
ghost use Rattle.std.specs.Prelude.{◌≡◌, ◌+◌, ◌≤◌};
ghost use Rattle.page_word.specs.Fields.{part, with_part, field_of, with_field, has_other_selector, is_tie};

// 2^48: the first number that is no word.
pub const WIDE: u64 = 0x1000000000000;

// The fields, from D0 on.
#[derive(Drop)]
pub enum Field {
    Selector,
    EchoedNonce,
    Pause,
    ForcedRole,
    RemoteFault,
    Ack,
    NextPage,
    Nonce,
    Abilities,
}

// The part of `bits` bits that starts at bit `low`.
pub(crate) fn part(word: u64, low: u32, bits: u32) -> u64
    requires { low + bits ≤ 48 }
    ensures { result ≡ part low bits word }
{
    (word >> low) % (1u64 << bits)
}

// The word with that part replaced; a value too large for it loses its upper bits.
pub(crate) fn with_part(word: u64, value: u64, low: u32, bits: u32) -> u64
    requires { low + bits ≤ 48 }
    ensures { result ≡ with_part low bits value word }
{
    let above = low + bits;
    let kept = (word >> above) << above;
    let placed = (value % (1u64 << bits)) << low;
    kept + (placed + word % (1u64 << low))
}

// The value of a field.
pub fn get(word: u64, field: Field) -> u64
    ensures { result ≡ field_of field word }
{
    match field {
        Field::Selector => part(word, 0, 5),
        Field::EchoedNonce => part(word, 5, 5),
        Field::Pause => part(word, 10, 2),
        Field::ForcedRole => part(word, 12, 1),
        Field::RemoteFault => part(word, 13, 1),
        Field::Ack => part(word, 14, 1),
        Field::NextPage => part(word, 15, 1),
        Field::Nonce => part(word, 16, 5),
        Field::Abilities => part(word, 21, 27),
    }
}

// The word with a field set to a value modulo the field's size. (Each of the two has its own table of the fields: wrong answers as `ack_set_at_remote_fault` are of one of them alone.)
pub fn set(word: u64, field: Field, value: u64) -> u64
    ensures { result ≡ with_field field value word }
{
    match field {
        Field::Selector => with_part(word, value, 0, 5),
        Field::EchoedNonce => with_part(word, value, 5, 5),
        Field::Pause => with_part(word, value, 10, 2),
        Field::ForcedRole => with_part(word, value, 12, 1),
        Field::RemoteFault => with_part(word, value, 13, 1),
        Field::Ack => with_part(word, value, 14, 1),
        Field::NextPage => with_part(word, value, 15, 1),
        Field::Nonce => with_part(word, value, 16, 5),
        Field::Abilities => with_part(word, value, 21, 27),
    }
}

// Whether a word is of another kind than the one that is negotiated with.
pub fn has_other_selector(word: u64) -> bool
    ensures { result ≡ has_other_selector word }
{
    get(word, Field::Selector) != 1
}

// Whether two words have the same nonce, so that neither side is told from the other.
pub fn is_tie(own: u64, word: u64) -> bool
    ensures { result ≡ is_tie own word }
{
    get(own, Field::Nonce) == get(word, Field::Nonce)
}
