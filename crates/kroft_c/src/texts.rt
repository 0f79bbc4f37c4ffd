//! The texts of results.
ghost use Rattle.std.specs.Prelude.{◌≡◌, ◌<◌, length};
ghost use Rattle.kroft_c.specs.Texts.{text_of, call_text, shape_text, step_text, history_text, written};

/// Writes the text of a number that a call returned, and a 0 behind it.
#[unsafe(no_mangle)]
pub extern "C" fn kroft_result_text(number: u32, text: &mut [u8]) -> u32
    ensures length { result ≡ length (text_of number) }
    ensures fits { result < 64 }
    ensures text { text.new ≡ written text.old (text_of number) }
{
    write(text_of(number), text)
}

/// Writes a text and a 0 behind it, or nothing if they don't fit.
pub(crate) fn write(told: &[u8], text: &mut [u8]) -> u32
    requires { length told.now < 64 }
    ensures length { result ≡ length told.now }
    ensures text { text.new ≡ written text.old told.now }
{
    let end = told.len();
    if end < text.len() {
        text[..end].copy_from_slice(told);
        text[end] = 0;
    }
    end as u32
}

#[tactic(auto, unfolding(crate::specs::Texts::text_of))]
fn text_of(number: u32) -> &'static [u8]
    ensures text { result.now ≡ text_of number }
    ensures fits { length result.now < 64 }
{
    if number < 110 {
        call_text(number)
    } else if number < 140 {
        shape_text(number)
    } else if number < 150 {
        step_text(number)
    } else {
        history_text(number)
    }
}

#[tactic(auto, unfolding(crate::specs::Texts::call_text))]
fn call_text(number: u32) -> &'static [u8]
    ensures text { result.now ≡ call_text number }
    ensures fits { length result.now < 64 }
{
    match number {
        0 => b"ok",
        1 => b"absent: there is no such thing, or nothing to do",
        100 => b"closed: nothing is behind the handle",
        101 => b"out of memory: an allocation was refused",
        102 => b"open already: something is behind the handle",
        103 => b"no law: there is no such law, unit or rest",
        104 => b"too long: 2^64 - 1 events were taken",
        105 => b"undecided: too many orders to follow in a unit",
        106 => b"no rounds: none were begun",
        107 => b"in rounds: they alone make the events",
        108 => b"no units: the law has none to forget",
        109 => b"no room: the buffer is too short",
        _ => b"no result has this number",
    }
}

#[tactic(auto, unfolding(crate::specs::Texts::shape_text))]
fn shape_text(number: u32) -> &'static [u8]
    ensures text { result.now ≡ shape_text number }
    ensures fits { length result.now < 64 }
{
    match number {
        111 => b"bad shape: block_words is out of its range",
        112 => b"bad shape: ways is out of its range",
        113 => b"bad shape: regs is out of its range",
        114 => b"bad shape: depth is out of its range",
        115 => b"bad shape: words is out of its range",
        116 => b"bad shape: sets is out of its range",
        117 => b"bad shape: banks is out of its range",
        118 => b"bad shape: bank_queue is out of its range",
        119 => b"bad shape: write_queue is out of its range",
        120 => b"bad shape: replies is out of its range",
        121 => b"bad image: it hasn't as many words as memory",
        131 => b"bad latency: it is more than 1000",
        132 => b"too many: requests of a list, or rounds",
        _ => b"no result has this number",
    }
}

#[tactic(auto, unfolding(crate::specs::Texts::step_text))]
fn step_text(number: u32) -> &'static [u8]
    ensures text { result.now ≡ step_text number }
    ensures fits { length result.now < 64 }
{
    match number {
        141 => b"out of range: memory has no such word",
        142 => b"no lane: a store that writes no byte",
        143 => b"tag in use: its load has no answer yet",
        144 => b"nothing owed: no load waits under the tag",
        145 => b"wrong word: the load gets another",
        146 => b"wrong answer: this event never gets it",
        147 => b"no event: its row is none that may be given here",
        148 => b"no answer: its row says nothing",
        _ => b"no result has this number",
    }
}

#[tactic(auto, unfolding(crate::specs::Texts::history_text))]
fn history_text(number: u32) -> &'static [u8]
    ensures text { result.now ≡ history_text number }
    ensures fits { length result.now < 64 }
{
    match number {
        151 => b"bad range: not 1 to 64 bytes, or not below 2^64",
        152 => b"no byte enabled: a load or a store of no byte",
        153 => b"number in use: an operation is open under it",
        154 => b"not open: no operation is open under the number",
        155 => b"wrong length: the load asks for another",
        156 => b"wrong byte: the load may not return it",
        160 => b"no reason: none is known",
        161 => b"never there: no store put the byte there",
        162 => b"overwritten: memory's first byte, by a store",
        163 => b"overwritten: a store's byte, by a later store",
        164 => b"not together: the bytes stood so at no moment",
        171 => b"no plan: one of its numbers is out of its range",
        _ => b"no result has this number",
    }
}
