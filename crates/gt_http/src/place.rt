ghost use Rattle.gt_http.specs.Place as spec;
ghost use Rattle.gt_http.specs.Place.{is_due, is_line_byte, place_after};
ghost use Rattle.std.specs.Prelude.{◌≡◌};

/// Where in a head the bytes read so far end.
#[derive(Clone, Copy)]
pub(crate) enum Place {
    /// In the empty lines before it.
    Blank,
    StartLine,
    Fields,
}

impl Place {
    /// Where they end after this byte.
    pub(crate) fn after(self, byte: u8) -> Place
        ensures { result ≡ place_after self byte }
    {
        match self {
            Place::Blank => {
                if is_line_byte(byte) {
                    Place::Blank
                } else {
                    Place::StartLine
                }
            }
            Place::StartLine => {
                if byte == b'\n' {
                    Place::Fields
                } else {
                    Place::StartLine
                }
            }
            Place::Fields => Place::Fields,
        }
    }

    /// Whether the bytes, of which `byte` was the last, are worth a parse: no others have a head, and of those that never
    /// get one the first line shows it.
    pub(crate) fn is_due(self, byte: u8, bytes: &[u8]) -> bool
        ensures { result ≡ is_due self byte bytes.now }
    {
        match self {
            Place::Blank => !is_line_byte(byte),
            Place::StartLine => byte == b'\n',
            Place::Fields => {
                byte == b'\n' && (bytes.ends_with(b"\n\n") || bytes.ends_with(b"\n\r\n"))
            }
        }
    }

    // Whether the byte ends a line behind the start line.
    fn ends_field(self, byte: u8) -> bool
        ensures { result ≡ spec.ends_field self byte }
    {
        match self {
            Place::Blank | Place::StartLine => false,
            Place::Fields => byte == b'\n',
        }
    }
}

/// How many lines end behind the start line.
pub(crate) fn field_lines(bytes: &[u8]) -> usize
    ensures { result ≡ spec.field_lines Place.Blank bytes.now }
{
    let mut place = Place::Blank;
    let mut count = 0;
    for byte in bytes {
        if place.ends_field(*byte) {
            count += 1;
        }
        let next = place.after(*byte);
        place = next;
    }
    count
}

// CR or LF.
fn is_line_byte(byte: u8) -> bool
    ensures { result ≡ is_line_byte byte }
{
    byte == b'\r' || byte == b'\n'
}
