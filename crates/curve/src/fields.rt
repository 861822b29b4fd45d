// A piece from its three fields, two of which are signed.
ghost use Rattle.std.specs.Prelude.{◌≡◌};
ghost use Rattle.curve.specs.Layout.{piece_from};

use crate::Piece;

pub fn piece_from(start: u32, value: u32, slope: u16) -> Piece
    ensures { result ≡ piece_from start value slope }
{
    Piece {
        start,
        value: value.cast_signed(),
        slope: slope.cast_signed(),
    }
}
