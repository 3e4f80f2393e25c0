// A search for many marks, by depth: the position of a mark is tried only with those of the marks before it that overlap nowhere.
//
// It is made for the last mark alone, then for the last two, and so on, until a rest of the track has no placing, and so the track has none.
// Were it made for the whole track alone, each placing of the marks before a crowd would be tried with the crowd again.
use crate::draw::MOST;
use crate::few::Unfinished;
use crate::squares::Squares;

// More turns than any of the rests takes.
const TURNS: u32 = 100000;

// Takes mark k to its next position at which it overlaps no mark before it, or takes it away, and gives the mark to go on with; none if there is
// none before it.
fn turn(squares: Squares, positions: &mut [u8; MOST], k: usize) -> Option<usize> {
    let Some(own) = positions.get_mut(k) else {
        return None;
    };
    if *own < 4 {
        *own += 1;
        let next = if squares.is_free(positions, k) {
            k.wrapping_add(1)
        } else {
            k
        };
        return Some(next);
    }
    *own = 0;
    if k == 0 { None } else { Some(k - 1) }
}

// Whether there is a placing of these marks.
fn rest_has(squares: Squares) -> Result<bool, Unfinished> {
    let mut positions = [0; MOST];
    let mut k = 0;
    for _ in 0..TURNS {
        if k == squares.xs.len() {
            return Ok(true);
        }
        let Some(next) = turn(squares, &mut positions, k) else {
            return Ok(false);
        };
        k = next;
    }
    Err(Unfinished)
}

// The track from mark k on.
fn from_mark(squares: Squares<'_>, k: usize) -> Option<Squares<'_>> {
    Some(Squares {
        xs: squares.xs.get(k..)?,
        ys: squares.ys.get(k..)?,
        side: squares.side,
    })
}

// Whether there is a placing of all marks.
pub fn has_placing(squares: Squares) -> Result<bool, Unfinished> {
    for k in (0..squares.xs.len()).rev() {
        let rest = from_mark(squares, k).ok_or(Unfinished)?;
        if !rest_has(rest)? {
            return Ok(false);
        }
    }
    Ok(true)
}
