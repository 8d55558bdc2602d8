//! The line and column of a place in a text.

ghost use Rattle.std.specs.Prelude.{◌≡◌, ◌≤◌, length, nat_le, IfOk, IsTrue};
ghost use Rattle.std.specs.List.{prefix_len};
ghost use Rattle.std.specs.List.Sorted.{IsNonDecreasing};
ghost use Rattle.id_text.specs.Places.{is_line_end, line_of, column_of, line_starts};

use crate::token::MAX_BYTES;
use std::alloc::{AllocError, Global};
use std::marker::Model;

/// The line and column of a byte offset, both counted from 1, columns in bytes. A line ends at LF.
///
/// Takes no memory, and time in proportion to the offset: for many places of one text use `Lines`.
pub fn line_col(text: &str, at: usize) -> (u32, u32)
    requires fits { length text.now ≤ MAX_BYTES }
    requires inside { at ≤ length text.now }
    ensures line { result.0 ≡ line_of text.now at }
    ensures column { result.1 ≡ column_of text.now at }
{
    let mut line = 1;
    let mut column = 1;
    for b in &text.as_bytes()[..at] {
        if is_line_end(*b) {
            line += 1;
            column = 1;
        } else {
            column += 1;
        }
    }
    (line, column)
}

/// Whether the byte ends a line.
fn is_line_end(b: u8) -> bool
    ensures { result ≡ is_line_end b }
{
    b == b'\n'
}

/// The text, and where its lines begin, for the lines and columns of many places.
#[derive(Drop)]
pub struct Lines<'a> {
    text: &'a str,
    starts: Vec<usize>,
}

impl<'a> Model for Lines<'a> {
    ghost use Rattle.std.specs.Prelude.{List, ℕ, length, ◌≡◌, ◌≤◌};
    ghost use Rattle.id_text.specs.declared.token.TheConstants.{MAX_BYTES};
    ghost use Rattle.id_text.specs.Places.{line_starts};

    ghost Value = { List ℕ };

    ghost view = { λ l. l.text.now };

    ghost invariant = { λ l. (length l.text.now ≤ MAX_BYTES) × (l.starts.items ≡ line_starts l.text.now) };
}

impl<'a> Lines<'a> {
    /// The lines of the text.
    pub fn new(alloc: Global, text: &'a str) -> Result<Lines<'a>, AllocError>
        requires { length text.now ≤ MAX_BYTES }
        ensures { IfOk result (λ l. l ≡ text.now) }
    {
        let starts = starts_of(alloc, text.as_bytes())?;
        Ok(Lines { text, starts })
    }

    /// What `line_col` gives for the text. Takes no memory, and time that grows with the logarithm of the number of
    /// lines.
    pub fn line_col(&self, at: usize) -> (u32, u32)
        requires { at ≤ length self.now }
        ensures line { result.0 ≡ line_of self.now at }
        ensures column { result.1 ≡ column_of self.now at }
    {
        self.line_col_near(at, 0)
    }

    /// What `line_col` gives for the text, and at once where the place is on the line `near`. Takes no memory.
    pub fn line_col_near(&self, at: usize, near: u32) -> (u32, u32)
        requires { at ≤ length self.now }
        ensures line { result.0 ≡ line_of self.now at }
        ensures column { result.1 ≡ column_of self.now at }
    {
        let starts = self.starts.as_slice();
        let line = starts_near(starts, at, near as usize);
        let column = at - starts[line - 1] + 1;
        (line as u32, column as u32)
    }
}

/// Where the lines of the text begin.
fn starts_of(alloc: Global, text: &[u8]) -> Result<Vec<usize>, AllocError>
    requires { length text.now ≤ MAX_BYTES }
    ensures { IfOk result (λ v. v.items ≡ line_starts text.now) }
{
    let mut starts = vec![in alloc; 0]?;
    for (i, b) in text.iter().enumerate() {
        if is_line_end(*b) {
            starts.push(i + 1)?;
        }
    }
    Ok(starts)
}

/// How many of the rising starts are at most `at`, which may be `near`.
fn starts_near(starts: &[usize], at: usize, near: usize) -> usize
    requires { IsNonDecreasing starts.now }
    ensures { result ≡ prefix_len (λ s. nat_le s at) starts.now }
{
    if are_until(starts, at, near) {
        near
    } else {
        starts_until(starts, at)
    }
}

/// Whether just the first `near` of the rising starts, of which there is one at least, are at most `at`.
fn are_until(starts: &[usize], at: usize, near: usize) -> bool
    requires { IsNonDecreasing starts.now }
    ensures { IsTrue result → near ≡ prefix_len (λ s. nat_le s at) starts.now }
{
    if near == 0 || near > starts.len() || starts[near - 1] > at {
        return false;
    }
    if near == starts.len() {
        return true;
    }
    if starts[near] <= at {
        return false;
    }
    true
}

/// How many of the rising starts are at most `at`.
fn starts_until(starts: &[usize], at: usize) -> usize
    requires { IsNonDecreasing starts.now }
    ensures { result ≡ prefix_len (λ s. nat_le s at) starts.now }
{
    starts.partition_point(|start| *start <= at)
}
