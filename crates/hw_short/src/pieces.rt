//! Short names by the ranks of the pieces of full names.
//!
//! A full name has a piece or two: `name`, or `owner.` and `name`. The pieces are put in order, each once, and a short name has the
//! places of its pieces. That the order is the same takes texts without dots.
ghost use Rattle.std.specs.Prelude.{◌≡◌, ◌⊎◌, true, false, ◌∷◌, [], ◌++◌, ◌<◌, ◌^◌, ℕ, Vec, Some, All, length, map, slice_get, IfOk, IfSome, IsTrue, OnOk};
ghost use Rattle.std.specs.declared.alloc.Global.{Global};
ghost use Rattle.hw_short.specs.Order.{IsFit, TellOrder};
ghost use Rattle.hw_short.specs.inside.ShortNames.{AreNamed, AreWithin, HasPlaces, HavePlaces, IsPieceFit, IsPlainPiece, KeepsPieces, piece_text, rank_or, three};

use crate::full_name::FullName;
use crate::ranks::ranks_of;
use hw_bits::Memory;
use hw_names::Names;
use hw_texts::Texts;
use indexmap::IndexSet;
use std::alloc::Global;

/// A piece of full names: a text, or a text with a dot behind it.
#[derive(Clone, Copy, PartialEq, Eq, Hash)]
pub struct Piece {
    /// The number of the text.
    pub text: usize,
    pub is_owner: bool,
}

/// The places of a full name's pieces among all; what has no name has none.
#[derive(Clone, Copy)]
pub struct Places {
    pub first: Option<usize>,
    pub second: Option<usize>,
}

/// The piece that is a text alone.
fn name_piece(text: usize) -> Piece
    ensures { result ≡ record { text = text; is_owner = false } }
{
    Piece {
        text,
        is_owner: false,
    }
}

/// The piece that is a text and a dot.
fn owner_piece(text: usize) -> Piece
    ensures { result ≡ record { text = text; is_owner = true } }
{
    Piece {
        text,
        is_owner: true,
    }
}

/// The place of a piece; a new one goes last.
fn piece_place(pieces: &mut IndexSet<Piece>, piece: Piece) -> Result<usize, Memory>
    ensures place { IfOk result (λ n. slice_get pieces.new.keys n ≡ Some piece) }
    ensures grown { (pieces.new.keys ≡ pieces.old.keys) ⊎ (pieces.new.keys ≡ pieces.old.keys ++ piece ∷ []) }
{
    let (place, _) = pieces.insert_full(piece)?;
    Ok(place)
}

/// The places of the pieces of a full name; new ones go last.
fn places_in(pieces: &mut IndexSet<Piece>, full: FullName) -> Result<Places, Memory>
    ensures places { IfOk result (HasPlaces pieces.new.keys full) }
    ensures kept { OnOk result (KeepsPieces pieces.old.keys pieces.new.keys) }
    ensures fit { (count : ℕ) → IsFit count full → All (IsPieceFit count) pieces.old.keys → OnOk result (All (IsPieceFit count) pieces.new.keys) }
{
    match full {
        FullName::Own(name) => {
            let first = piece_place(pieces, name_piece(name))?;
            Ok(Places {
                first: Some(first),
                second: None,
            })
        }
        FullName::Dotted { owner, name } => {
            let first = piece_place(pieces, owner_piece(owner))?;
            let second = piece_place(pieces, name_piece(name))?;
            Ok(Places {
                first: Some(first),
                second: Some(second),
            })
        }
        FullName::Nameless => Ok(Places {
            first: None,
            second: None,
        }),
    }
}

/// The places of the pieces of all full names.
fn all_places(
    alloc: Global,
    pieces: &mut IndexSet<Piece>,
    full: &[FullName],
) -> Result<Vec<Places>, Memory>
    ensures places { IfOk result (λ places. HavePlaces pieces.new.keys full.now places.items) }
    ensures fit { (count : ℕ) → All (IsFit count) full.now → All (IsPieceFit count) pieces.old.keys → OnOk result (All (IsPieceFit count) pieces.new.keys) }
{
    let mut places = Vec::new(alloc);
    for name in full {
        places.push(places_in(pieces, *name)?)?;
    }
    Ok(places)
}

/// Whether the piece's name has no dot.
fn is_plain(texts: &Texts, piece: Piece) -> bool
    requires { piece.text < length texts.now.all }
    ensures { IsTrue result → IsPlainPiece texts.now.all piece }
{
    !texts.text(piece.text).contains(&b'.')
}

/// Whether no piece's name has a dot.
fn are_plain(texts: &Texts, pieces: &[Piece]) -> bool
    requires { All (IsPieceFit (length texts.now.all)) pieces.now }
    ensures { IsTrue result → All (IsPlainPiece texts.now.all) pieces.now }
{
    for piece in pieces {
        if !is_plain(texts, *piece) {
            return false;
        }
    }
    true
}

/// The text of a piece.
fn text_of_piece(alloc: Global, texts: &Texts, piece: Piece) -> Result<Vec<u8>, Memory>
    requires { piece.text < length texts.now.all }
    ensures { IfOk result (λ text. text.items ≡ piece_text texts.now.all piece) }
{
    let mut text = Vec::from_slice(alloc, texts.text(piece.text))?;
    if piece.is_owner {
        text.push(b'.')?;
    }
    Ok(text)
}

/// The texts of pieces.
fn texts_of_pieces(alloc: Global, texts: &Texts, pieces: &[Piece]) -> Result<Vec<Vec<u8>>, Memory>
    requires { All (IsPieceFit (length texts.now.all)) pieces.now }
    ensures { IfOk result (λ made. map (λ (t : Vec ℕ Global). t.items) made.items ≡ map (piece_text texts.now.all) pieces.now) }
{
    let mut made = Vec::new(alloc);
    for piece in pieces {
        made.push(text_of_piece(alloc, texts, *piece)?)?;
    }
    Ok(made)
}

/// Three numbers as a text, which stands in their order.
fn text_of_three(
    alloc: Global,
    first: usize,
    second: usize,
    third: usize,
) -> Result<Vec<u8>, Memory>
    requires first { first < 2 ^ 32 }
    requires second { second < 2 ^ 32 }
    requires third { third < 2 ^ 32 }
    ensures { IfOk result (λ text. text.items ≡ three first second third) }
{
    let mut text = Vec::from_slice(alloc, &(first as u32).to_be_bytes())?;
    text.extend_from_slice(&(second as u32).to_be_bytes())?;
    text.extend_from_slice(&(third as u32).to_be_bytes())?;
    Ok(text)
}

/// The rank of what stands at a place, or another number where there is no place.
fn rank_at(ranks: &[usize], place: Option<usize>, other: usize) -> usize
    requires { IfSome place (λ n. n < length ranks.now) }
    ensures { result ≡ rank_or ranks.now place other }
{
    match place {
        Some(place) => ranks[place],
        None => other,
    }
}

/// The names by the ranks of the pieces. A number of its own makes each distinct.
fn names_by(alloc: Global, ranks: &[usize], places: &[Places]) -> Result<Names, Memory>
    requires ranks { All (λ rank. rank < length ranks.now) ranks.now }
    requires places { All (AreWithin (length ranks.now)) places.now }
    requires room { length places.now < 2 ^ 32 }
    ensures { IfOk result (AreNamed ranks.now places.now) }
{
    if ranks.len() > u32::MAX as usize {
        return Err(Memory);
    }
    let mut names = Names::new(alloc);
    for (number, place) in places.iter().enumerate() {
        let first = rank_at(ranks, place.first, ranks.len());
        let second = rank_at(ranks, place.second, 0);
        let name = text_of_three(alloc, first, second, number)?;
        let _number = names.intern(&name)?;
    }
    Ok(names)
}

/// Short names by their numbers, in the order of the full names; `None` where a text has a dot.
pub fn short_names(alloc: Global, texts: &Texts, full: &[FullName]) -> Result<Option<Names>, Memory>
    requires fit { All (IsFit (length texts.now.all)) full.now }
    requires room { length full.now < 2 ^ 32 }
    ensures { IfOk result (λ found. IfSome found (TellOrder texts.now.all full.now)) }
{
    let mut pieces = IndexSet::new(alloc);
    let places = all_places(alloc, &mut pieces, full)?;
    if !are_plain(texts, pieces.as_slice()) {
        return Ok(None);
    }
    let in_order = texts_of_pieces(alloc, texts, pieces.as_slice())?;
    let same = texts_of_pieces(alloc, texts, pieces.as_slice())?;
    let ranks = ranks_of(alloc, &same, in_order)?;
    Ok(Some(names_by(alloc, &ranks, &places)?))
}
