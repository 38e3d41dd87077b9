// The layer that found what is wrong.
#[derive(Clone, Copy, Debug, PartialEq, Eq)]
pub enum Layer {
    Sheet,
    Opening,
    Run,
    // tape and filing
    Tape,
}

// What is wrong with the bytes of a sheet. An offset is that of the wrong field.
#[derive(Clone, Copy, Debug, PartialEq, Eq)]
pub enum SheetRefusal {
    // there are fewer than 4 bytes
    Short { length: u32 },
    // the number of places or of moves is out of range
    Size { offset: u32 },
    // the kind of a certificate is out of range
    Kind { offset: u32 },
    // there are more or fewer bytes than the sheet's sizes ask for: the smaller of both lengths
    Length { smaller: u32 },
    // a take or a give is too large
    Weight { offset: u32 },
    // a ceiling or a number of a certificate is out of range for its kind
    Field { offset: u32 },
}

#[derive(Clone, Copy, Debug, PartialEq, Eq)]
pub enum Refusal {
    Sheet(SheetRefusal),
}
