//! Cutting a line into its words, while testing its bytes.
ghost use Rattle.std.specs.{Prelude.{◌≡◌, ◌≤◌, ◌++◌, length, take, IfOk, IfSome}};
ghost use Rattle.pf_form.specs.Form.Words.{texts};
ghost use Rattle.pf_line.specs.{Lines.is_line_byte, Cutting.{if_some, CutTo}};

use pf_form::form::is_blank;
use std::alloc::Global;

/// Why a line isn't cut.
#[derive(Clone, Copy, Debug, PartialEq, Eq)]
pub(crate) enum CutFault {
    /// It has a byte that no line may have.
    BadByte,
    /// It has more words than there are places, or out of memory.
    NoPlace,
}

/// Whether a line may have the byte.
pub(crate) fn line_byte(b: u8) -> bool
    ensures { result ≡ is_line_byte b }
{
    (b' ' <= b && b <= b'~') || b == b'\t' || b == b'\r'
}

/// Cuts a line into words, which are put into the first places, and returns how many there are. It takes no memory.
pub(crate) fn cut<'a>(line: &'a [u8], places: &mut [&'a [u8]]) -> Result<usize, CutFault>
    ensures cut { CutTo line.now result (λ n. texts (take n places.new)) }
    ensures room { IfOk result (λ n. n ≤ length places.new) }
{
    let mut count = 0;
    let mut start = 0;
    for at in 0..line.len() {
        let byte = line[at];
        if is_blank(byte) {
            let Some(next) = place(&line[start..at], places, count) else {
                return Err(CutFault::NoPlace);
            };
            count = next;
            start = at + 1;
        } else if !line_byte(byte) {
            return Err(CutFault::BadByte);
        }
    }
    match place(&line[start..], places, count) {
        Some(count) => Ok(count),
        None => Err(CutFault::NoPlace),
    }
}

/// Puts a word after this many others, unless it is empty. `None`: there is no place left for it.
fn place<'a>(word: &'a [u8], places: &mut [&'a [u8]], count: usize) -> Option<usize>
    requires { count ≤ length places.old }
    ensures words { IfSome result (λ n. texts (take n places.new) ≡ texts (take count places.old) ++ if_some word.now) }
    ensures room { IfSome result (λ n. n ≤ length places.new) }
{
    if word.is_empty() {
        return Some(count);
    }
    if count == places.len() {
        return None;
    }
    places[count] = word;
    Some(count + 1)
}

/// Cuts a line into words, however many there are.
pub(crate) fn cut_list<'a>(alloc: Global, line: &'a [u8]) -> Result<Vec<&'a [u8]>, CutFault>
    ensures { CutTo line.now result (λ v. texts v.items) }
{
    // a word has at least one byte, and a blank before the next
    let Ok(mut words) = Vec::with_capacity(alloc, line.len() / 2 + 1) else {
        return Err(CutFault::NoPlace);
    };
    let mut start = 0;
    for at in 0..line.len() {
        let byte = line[at];
        if is_blank(byte) {
            let Some(()) = push_some(&mut words, &line[start..at]) else {
                return Err(CutFault::NoPlace);
            };
            start = at + 1;
        } else if !line_byte(byte) {
            return Err(CutFault::BadByte);
        }
    }
    match push_some(&mut words, &line[start..]) {
        Some(()) => Ok(words),
        None => Err(CutFault::NoPlace),
    }
}

/// Appends a word to the others, unless it is empty. `None`: out of memory.
fn push_some<'a>(words: &mut Vec<&'a [u8]>, word: &'a [u8]) -> Option<()>
    ensures { IfSome result (λ u. texts words.new.items ≡ texts words.old.items ++ if_some word.now) }
{
    if word.is_empty() {
        return Some(());
    }
    words.push(word).ok()
}
