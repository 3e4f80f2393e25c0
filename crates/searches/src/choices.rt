// Choices of labels for a strip of up to 6 marks.
//
// A choice has a digit for each mark, which says how the mark is labelled. Choices are tried in the order of the numbers that their
// digits write, the first mark's the highest; the first choice has zeros alone.
use crate::sides::{Position, Side};
use crate::strip::MOST;

// What a digit says.
#[derive(Clone, Copy)]
pub enum Model {
    // 0 to 3 for the positions 2, 3, 1, 4, so that the first choice is the one that document 01 ranks first.
    Full,
    // 0 for no label, or the position 1 to 4.
    Best,
    // The side, 0 above and 1 below, plus twice the number of dots by which the label lies right of its leftmost edge.
    Slide,
    // The same in half dots.
    Halves,
}

// The digits of a choice, 0 behind the last mark.
pub type Digits = [u8; MOST];

impl Model {
    // The greatest digit; sliding has labels of at most 7 dots.
    fn greatest(self) -> u8 {
        match self {
            Model::Full => 3,
            Model::Best => 4,
            Model::Slide => 15,
            Model::Halves => 29,
        }
    }

    // Puts the next choice in the place of one, or the first in that of the last, and says whether there was a next one.
    pub fn advance(self, digits: &mut [u8]) -> bool {
        for digit in digits.iter_mut().rev() {
            if *digit < self.greatest() {
                *digit += 1;
                return true;
            }
            *digit = 0;
        }
        false
    }

    // The same with the next choice that has other digits up to that of mark `k`.
    fn skip(self, digits: &mut [u8], k: usize) -> bool {
        if digits.len() <= k {
            return false;
        }
        digits[k + 1..].fill(0);
        self.advance(&mut digits[..k + 1])
    }

    // The same with the next choice to try after one whose labels overlap from mark `k` on. In the model Full none is left out; sliding
    // has too many choices, and those are left out that have the same digits up to that of mark `k`.
    pub fn go_on(self, digits: &mut [u8], k: usize) -> bool {
        match self {
            Model::Full => self.advance(digits),
            _ => self.skip(digits, k),
        }
    }
}

// The position that a digit of the model Full stands for.
pub fn ranked(digit: u8) -> Position {
    match digit {
        0 => Position::AboveLeft,
        1 => Position::BelowLeft,
        2 => Position::AboveRight,
        _ => Position::BelowRight,
    }
}

// What a digit of the models Slide and Halves stands for: a side, and by how many dots or half dots the label lies right of its leftmost
// edge.
#[derive(Clone, Copy)]
pub struct Slid {
    pub side: Side,
    pub by: u8,
}

impl From<u8> for Slid {
    fn from(digit: u8) -> Slid {
        let side = if digit % 2 == 0 {
            Side::Above
        } else {
            Side::Below
        };
        let by = digit / 2;
        Slid { side, by }
    }
}

impl Slid {
    // The digit, if the model Slide has it.
    pub fn digit(self) -> Option<u8> {
        if self.by < 8 {
            Some(self.side as u8 + 2 * self.by)
        } else {
            None
        }
    }
}
