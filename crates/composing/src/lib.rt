// The composites of the sixteen raster operations, as a table.
#![tactic(auto)]

ghost use Rattle.std.specs.Prelude.{◌≡◌};
ghost use Rattle.raster.specs.Pixel.{composite};

// Row a, column b: the composite of a then b.
const COMPOSITES: [[u8; 16]; 16] = [
    [0, 0, 3, 3, 0, 0, 3, 3, 12, 12, 15, 15, 12, 12, 15, 15], // clear
    [0, 1, 2, 3, 0, 1, 2, 3, 12, 13, 14, 15, 12, 13, 14, 15], // and
    [0, 2, 1, 3, 0, 2, 1, 3, 12, 14, 13, 15, 12, 14, 13, 15], // andReverse
    [0, 3, 0, 3, 0, 3, 0, 3, 12, 15, 12, 15, 12, 15, 12, 15], // copy
    [0, 0, 3, 3, 4, 4, 7, 7, 8, 8, 11, 11, 12, 12, 15, 15], // andInverted
    [0, 1, 2, 3, 4, 5, 6, 7, 8, 9, 10, 11, 12, 13, 14, 15], // noop
    [0, 2, 1, 3, 4, 6, 5, 7, 8, 10, 9, 11, 12, 14, 13, 15], // xor
    [0, 3, 0, 3, 4, 7, 4, 7, 8, 11, 8, 11, 12, 15, 12, 15], // or
    [0, 0, 3, 3, 8, 8, 11, 11, 4, 4, 7, 7, 12, 12, 15, 15], // nor
    [0, 1, 2, 3, 8, 9, 10, 11, 4, 5, 6, 7, 12, 13, 14, 15], // equiv
    [0, 2, 1, 3, 8, 10, 9, 11, 4, 6, 5, 7, 12, 14, 13, 15], // invert
    [0, 3, 0, 3, 8, 11, 8, 11, 4, 7, 4, 7, 12, 15, 12, 15], // orReverse
    [0, 0, 3, 3, 12, 12, 15, 15, 0, 0, 3, 3, 12, 12, 15, 15], // copyInverted
    [0, 1, 2, 3, 12, 13, 14, 15, 0, 1, 2, 3, 12, 13, 14, 15], // orInverted
    [0, 2, 1, 3, 12, 14, 13, 15, 0, 2, 1, 3, 12, 14, 13, 15], // nand
    [0, 3, 0, 3, 12, 15, 12, 15, 0, 3, 0, 3, 12, 15, 12, 15], // set
];

// One composite. Of an argument only bits 3:0 count, as in the raster-operation register.
pub fn compose(a: u8, b: u8) -> u8
    ensures { result ≡ composite a b }
{
    let row = (a % 16) as usize;
    let column = (b % 16) as usize;
    COMPOSITES[row][column]
}
