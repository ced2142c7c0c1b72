// Lines and words of a script, which are bytes and need not be text, and what words say as bytes.
ghost use Rattle.std.specs.Prelude.{◌≡◌, Bool, ◌==◌, ◌++◌, ◌∷◌, [], map, flat_map, IfOk, MatchOption};
ghost use Rattle.std.specs.List.{slice_split, position, before_first, after_first};
ghost use Rattle.std.specs.Str.{IsUtf8};
ghost use Rattle.words.specs.Digits.{bytes_said};
ghost use Rattle.words.specs.Words.{is_blank, words_said};

use crate::number::hex_byte;
use crate::unread::Unread;
use std::alloc::{AllocError, Global};

pub fn lines_of<'a>(heap: Global, text: &'a [u8]) -> Result<Vec<&'a [u8]>, AllocError>
    ensures { IfOk result (λ lines. map (λ line. line.now) lines.items ≡ slice_split (λ b. b == 10) text.now) }
{
    text.split(|b| *b == b'\n').collect(heap)
}

// The words of a line, up to its comment.
pub fn words_of<'a>(heap: Global, line: &'a [u8]) -> Result<Vec<&'a [u8]>, Unread>
    ensures { IfOk result (λ words. map (λ word. word.now) words.items ≡ words_said line.now) }
{
    let words = before_comment(line)
        .split(|b| is_blank(*b))
        .filter(|word| !word.is_empty())
        .collect(heap)?;
    Ok(words)
}

fn before_comment(line: &[u8]) -> &[u8]
    ensures { result.now ≡ before_first (λ b. b == 35) line.now }
{
    match cut_at(line, &b'#') {
        Some((said, _comment)) => said,
        None => line,
    }
}

// The carriage return stands at the end of a line that was written on Windows.
fn is_blank(byte: u8) -> bool
    ensures { result ≡ is_blank byte }
{
    matches!(byte, b' ' | b'\t' | b'\r')
}

// A word as text, to be told from others. One that is no text is none of the language, and comes out empty.
pub fn text_of(word: &[u8]) -> &str
    ensures text { IsUtf8 word.now → result.now ≡ word.now }
    ensures other { ¬ IsUtf8 word.now → result.now ≡ [] }
{
    std::str::from_utf8(word).unwrap_or("")
}

// What stands before and after the first such mark.
pub fn cut_at<'a, T: PartialEq>(list: &'a [T], mark: &T) -> Option<(&'a [T], &'a [T])>
    ensures { let is_mark : T → Bool = λ x. T.eq x mark.now in MatchOption result (position is_mark list.now ≡ None) (λ cut. (cut.0.now ≡ before_first is_mark list.now) × (cut.1.now ≡ after_first is_mark list.now)) }
{
    let place = list.iter().position(|x| x == mark)?;
    Some((&list[..place], &list[place + 1..]))
}

// The bytes that words of an even number of hexadecimal digits say together.
pub fn bytes_of(heap: Global, words: &[&[u8]]) -> Result<Vec<u8>, Unread>
    ensures { IfOk result (λ bytes. bytes.items ≡ flat_map (λ word. bytes_said word.now) words.now) }
{
    let mut bytes = Vec::new(heap);
    for word in words {
        push_bytes(&mut bytes, word)?;
    }
    Ok(bytes)
}

fn push_bytes(bytes: &mut Vec<u8>, word: &[u8]) -> Result<(), Unread>
    ensures { IfOk result (λ _. bytes.new.items ≡ bytes.old.items ++ bytes_said word.now) }
{
    for pair in word.chunks(2) {
        bytes.push(byte_of(pair)?)?;
    }
    Ok(())
}

fn byte_of(pair: &[u8]) -> Result<u8, Unread>
    ensures { IfOk result (λ byte. bytes_said pair.now ≡ byte ∷ []) }
{
    let [_, _] = pair else {
        return Err(Unread::OddDigits);
    };
    hex_byte(pair)
}
