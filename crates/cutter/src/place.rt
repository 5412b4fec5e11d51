// Which mode cuts next.
ghost use Rattle.std.specs.Prelude.{◌≡◌};
ghost use Rattle.cutter.specs.Rows.{next};
ghost use Rattle.tokens.specs.Modes.{number};
ghost use Rattle.cutter.specs.Made.{mode_at};

use kinds::Kind;
use tokens::mode::Mode;

// Where the cutting stands: how much of a pattern identifier, an equals sign and an opening brace was just seen, or in which mode it is; or, `Unclosed`, that
// normal mode cuts within a hex pattern whose closing brace has not come.
#[derive(Clone, Copy)]
pub enum Place {
    Elsewhere,
    Named,
    Equated,
    InHex,
    InJump,
    Unclosed,
}

// Where a row of normal mode leaves the cutting.
pub fn onward(place: Place, id: u32) -> Place
    ensures { result ≡ next place id }
{
    if id == Kind::PatternIdent as u32 {
        return Place::Named;
    }
    if kinds::is_trivia(id) {
        return place;
    }
    match place {
        Place::Named if id == Kind::Equal as u32 => Place::Equated,
        Place::Equated if id == Kind::LBrace as u32 => Place::InHex,
        Place::Unclosed if id == Kind::LBracket as u32 => Place::InJump,
        Place::Unclosed if id != Kind::RBrace as u32 => Place::Unclosed,
        _ => Place::Elsewhere,
    }
}

// The mode that cuts at a place.
pub fn mode_of(place: Place) -> Mode
    ensures { number result ≡ mode_at place }
{
    match place {
        Place::InHex => Mode::Hex,
        Place::InJump => Mode::Jump,
        Place::Elsewhere | Place::Named | Place::Equated | Place::Unclosed => Mode::Normal,
    }
}
