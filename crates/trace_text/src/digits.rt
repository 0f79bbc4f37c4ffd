//! Numbers, words and masks as text.
ghost use Rattle.std.specs.Prelude.{◌≡◌, ◌+◌, ◌-◌, ◌<◌, ◌≤◌, ◌++◌, length, decimal, replicate, max};
ghost use Rattle.trace_text.specs.declared.fault.TheConstants.{MAX_PAIR};
ghost use Rattle.flat_model.specs.Words.{has, Lane0, Lane1, Lane2, Lane3};
ghost use Rattle.flat_model.specs.Texts.{word_text, bit_text, lanes_text, hex_digit as digit_of};
ghost use Rattle.trace_text.specs.Fields.{padded};

use crate::text::LineText;
use bitflags::Flags;
use flat_model::{Lanes, Word};
use itoa::Buffer;

impl LineText {
    /// Adds a number in decimal.
    pub fn push_decimal(&mut self, n: u32)
        requires { length self.old + 10 ≤ MAX_PAIR }
        ensures text { self.new ≡ self.old ++ decimal n }
        ensures len { length self.new ≤ length self.old + 10 }
    {
        let mut buffer = Buffer::new();
        self.push_bytes(buffer.format(n).as_bytes());
    }

    fn push_zeros(&mut self, count: usize)
        requires { length self.old + count ≤ MAX_PAIR }
        ensures text { self.new ≡ self.old ++ replicate count 48 }
        ensures len { length self.new ≡ length self.old + count }
    {
        for _ in 0..count {
            self.push(b'0');
        }
    }

    fn push_behind_zeros(&mut self, digits: &[u8], width: usize)
        requires width { length self.old + width ≤ MAX_PAIR }
        requires digits { length self.old + length digits.now ≤ MAX_PAIR }
        ensures text { self.new
            ≡ self.old ++ replicate (width - length digits.now) 48 ++ digits.now }
        ensures len { length self.new ≡ length self.old + max width (length digits.now) }
    {
        self.push_zeros(width.saturating_sub(digits.len()));
        self.push_bytes(digits);
    }

    pub(crate) fn push_padded(&mut self, n: u32, width: usize)
        requires width { width ≤ 10 }
        requires room { length self.old + 10 ≤ MAX_PAIR }
        ensures text { self.new ≡ self.old ++ padded width n }
        ensures len { length self.new ≤ length self.old + 10 }
    {
        let mut buffer = Buffer::new();
        self.push_behind_zeros(buffer.format(n).as_bytes(), width);
    }

    pub(crate) fn push_tag(&mut self, tag: u16)
        requires { length self.old + 5 ≤ MAX_PAIR }
        ensures text { self.new ≡ self.old ++ padded 5 tag }
        ensures len { length self.new ≤ length self.old + 5 }
    {
        let mut buffer = Buffer::new();
        self.push_behind_zeros(buffer.format(tag).as_bytes(), 5);
    }

    /// Adds a word's eight digits, byte 0 first.
    #[tactic(auto, unfolding(flat_model::specs::Texts::word_text))]
    pub fn push_word(&mut self, word: Word)
        requires { length self.old + 8 ≤ MAX_PAIR }
        ensures text { self.new ≡ self.old ++ word_text word }
        ensures len { length self.new ≡ length self.old + 8 }
    {
        self.push_bytes(&[
            hex_digit(word.b0 / 16),
            hex_digit(word.b0 % 16),
            hex_digit(word.b1 / 16),
            hex_digit(word.b1 % 16),
            hex_digit(word.b2 / 16),
            hex_digit(word.b2 % 16),
            hex_digit(word.b3 / 16),
            hex_digit(word.b3 % 16),
        ]);
    }

    /// Adds a mask's four digits, lane 0 first.
    #[tactic(auto, unfolding(flat_model::specs::Texts::lanes_text))]
    pub fn push_lanes(&mut self, lanes: Lanes)
        requires { length self.old + 4 ≤ MAX_PAIR }
        ensures text { self.new ≡ self.old ++ lanes_text lanes }
        ensures len { length self.new ≡ length self.old + 4 }
    {
        self.push_bytes(&[
            lane_digit(lanes, Lanes::LANE_0),
            lane_digit(lanes, Lanes::LANE_1),
            lane_digit(lanes, Lanes::LANE_2),
            lane_digit(lanes, Lanes::LANE_3),
        ]);
    }
}

fn hex_digit(n: u8) -> u8
    requires { n < 16 }
    ensures { result ≡ digit_of n }
{
    if n < 10 { b'0' + n } else { b'a' + (n - 10) }
}

#[tactic(auto, unfolding(flat_model::specs::Words::has))]
fn lane_digit(lanes: Lanes, lane: Lanes) -> u8
    ensures zero { lane.0 ≡ 1 → result ≡ bit_text (has lanes Lane0) }
    ensures one { lane.0 ≡ 2 → result ≡ bit_text (has lanes Lane1) }
    ensures two { lane.0 ≡ 4 → result ≡ bit_text (has lanes Lane2) }
    ensures three { lane.0 ≡ 8 → result ≡ bit_text (has lanes Lane3) }
{
    if lanes.contains(lane) { b'1' } else { b'0' }
}
