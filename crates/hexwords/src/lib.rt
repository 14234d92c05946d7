#![tactic(auto)]

ghost use Rattle.std.specs.Prelude.{◌≡◌, IfOk, option_map};
ghost use Rattle.std.specs.Borrow.{sem, u8};
ghost use Rattle.hexwords.specs.Hex.{first_word, after_word, spelled, file_of};
ghost use Rattle.hexwords.specs.Room.{KeepsShown};

use std::alloc::AllocError;

// The first word of a line, and what stands behind it.
pub fn split_word(line: &[u8]) -> (&[u8], &[u8])
    ensures word { result.0.now ≡ first_word line.now }
    ensures behind { result.1.now ≡ after_word line.now }
{
    let start = line.iter().position(|b| *b != b' ');
    let line = &line[start.unwrap_or(line.len())..];
    let end = line.iter().position(|b| *b == b' ');
    line.split_at(end.unwrap_or(line.len()))
}

// The first word of a line: its first run of bytes other than the space.
pub fn first_word(line: &[u8]) -> &[u8]
    ensures { result.now ≡ first_word line.now }
{
    split_word(line).0
}

// The bytes that digits spell, two digits a byte, in the room of `file`.
fn spell<'a>(file: &'a mut Vec<u8>, digits: &[u8]) -> Result<Option<&'a [u8]>, AllocError>
    ensures* after_borrow { sem 𝓛 (KeepsShown u8 file.entry result) }
    ensures bytes { IfOk result (λ bytes. option_map (λ b. b.now) bytes ≡ spelled digits.now) }
{
    file.resize(digits.len() / 2, 0)?;
    match hex::decode_to_slice(digits, file.as_mut_slice()) {
        Ok(()) => Ok(Some(file.as_slice())),
        Err(_) => Ok(None),
    }
}

// The file that a word spells, in the room of `file`, which keeps it; the empty file as `-`.
#[tactic(auto, using(crate::proofs::Spelling::file_empty, crate::proofs::Spelling::file_dash, crate::proofs::Spelling::file_pair, crate::proofs::Spelling::file_triple, crate::proofs::Spelling::file_spelled))]
pub fn read_file<'a>(file: &'a mut Vec<u8>, word: &[u8]) -> Result<Option<&'a [u8]>, AllocError>
    ensures* after_borrow { sem 𝓛 (KeepsShown u8 file.entry result) }
    ensures bytes { IfOk result (λ bytes. option_map (λ b. b.now) bytes ≡ file_of word.now) }
{
    match word {
        [] => Ok(None),
        [b'-'] => {
            file.clear();
            Ok(Some(file.as_slice()))
        }
        _ => spell(file, word),
    }
}
