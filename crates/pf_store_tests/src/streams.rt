// Peers' streams: at random, whole and in pieces.

use crate::books::{Asked, asked_by};
use crate::chance::Chance;
use crate::rows::bytes_of;
use crate::words::Words;
use pf_core::{Command, StateCommand};
use pf_state::{Fed, FeedError, PeerFault, PeerReader};
use std::alloc::{AllocError, Global};

/// Bytes that mean something in a message.
const BYTES: &[u8] = &[0, 1, 2, 4, 5, 6, 17, 58, 64, 68, 88, 152, 255];

/// How many bytes a piece has at most, one of these for all pieces of a stream.
const LENGTHS: [usize; 4] = [1, 7, 40, 200];

/// The most pieces that a stream is cut into.
const PIECES: usize = 1000;

/// One to three messages, of which half of the streams are changed.
pub fn stream_at_random(
    alloc: Global,
    words: &Words,
    chance: &mut Chance,
) -> Result<Vec<u8>, AllocError> {
    let mut stream = Vec::new(alloc);
    let messages = chance.below(3);
    for _ in 0..messages.saturating_add(1) {
        let message = words.text(chance, "MESSAGE")?;
        stream.extend_from_slice(&bytes_of(alloc, message.as_str())?)?;
    }
    if chance.below(2) == 0 {
        return Ok(stream);
    }
    let changes = chance.below(3);
    for _ in 0..changes.saturating_add(1) {
        stream = changed(alloc, chance, &stream)?;
    }
    Ok(stream)
}

// The stream with another byte, mostly; or cut, or with some bytes dropped or doubled.
fn changed(alloc: Global, chance: &mut Chance, stream: &[u8]) -> Result<Vec<u8>, AllocError> {
    let (how, place) = (chance.below(8), chance.below(stream.len()));
    let (front, back) = (front_of(stream, place), rest_from(stream, place));
    let count = chance.below(70);
    let mut made = Vec::from_slice(alloc, front)?;
    match how {
        0 => {}
        1 => made.extend_from_slice(rest_from(back, count))?,
        2 => {
            made.extend_from_slice(front_of(back, count))?;
            made.extend_from_slice(back)?;
        }
        _ => {
            made.extend_from_slice(back)?;
            if let Some(byte) = made.get_mut(place) {
                *byte = chance.byte(*byte, BYTES);
            }
        }
    }
    Ok(made)
}

/// The first so many of the bytes, or all of them.
pub fn front_of(bytes: &[u8], count: usize) -> &[u8] {
    bytes.get(..count).unwrap_or(bytes)
}

/// What stands behind the first so many of the bytes.
pub fn rest_from(bytes: &[u8], count: usize) -> &[u8] {
    bytes.get(count..).unwrap_or(&[])
}

/// The stream in pieces, cut at random.
pub fn pieces_of<'a>(
    alloc: Global,
    chance: &mut Chance,
    stream: &'a [u8],
) -> Result<Vec<&'a [u8]>, AllocError> {
    let most = LENGTHS.get(chance.below(4)).copied().unwrap_or(1);
    let mut pieces = Vec::new(alloc);
    let mut rest = stream;
    for _ in 0..PIECES {
        if rest.is_empty() {
            break;
        }
        let count = chance.below(most).saturating_add(1);
        pieces.push(front_of(rest, count))?;
        rest = rest_from(rest, count);
    }
    pieces.push(rest)?;
    Ok(pieces)
}

/// What a stream asks that comes in these pieces: each of its messages, and then the states. Before it how many messages these are, and the
/// stream's fault.
pub fn asked_by_stream(
    alloc: Global,
    pieces: &[&[u8]],
) -> Result<(String, Vec<Asked>), AllocError> {
    let mut reader = PeerReader::new(alloc);
    let (mut asked, mut ended) = (Vec::new(alloc), None);
    for piece in pieces {
        match reader.feed(alloc, piece) {
            Ok(fed) => ended = take_messages(&mut asked, fed)?,
            Err(FeedError::Failed) => break,
            Err(FeedError::Memory) => return Err(AllocError),
        }
    }
    if let Ok(fault) = reader.finish() {
        ended = fault;
    }
    let head = format!(in alloc; "{} messages, {ended:?}: ", asked.len())?;
    asked.push(asked_by(alloc, b"show states")?)?;
    Ok((head, asked))
}

// Appends the messages of a piece, and returns its fault.
fn take_messages(asked: &mut Vec<Asked>, fed: Fed) -> Result<Option<PeerFault>, AllocError> {
    let Fed { messages, fault } = fed;
    for message in messages {
        asked.push(Asked::One(Command::States(StateCommand::Peer(message))))?;
    }
    Ok(fault)
}

/// What a stream comes to that ends behind its front, and goes on after that.
pub fn cut_text(alloc: Global, front: &[u8], back: &[u8]) -> Result<String, AllocError> {
    let mut reader = PeerReader::new(alloc);
    let mut text = String::new(alloc);
    tell_piece(alloc, &mut text, &mut reader, front)?;
    text.push_str(", then ")?;
    tell_piece(alloc, &mut text, &mut reader, back)?;
    Ok(text)
}

// What a piece brings, and what the reader says of an end behind it.
fn tell_piece(
    alloc: Global,
    text: &mut String,
    reader: &mut PeerReader,
    piece: &[u8],
) -> Result<(), AllocError> {
    match reader.feed(alloc, piece) {
        Ok(fed) => write!(text, "{} messages, {:?}", fed.messages.len(), fed.fault)?,
        Err(fault) => write!(text, "{fault:?}")?,
    }
    let ended = reader.finish();
    write!(text, ", an end {ended:?}")
}
