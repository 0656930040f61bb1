// A line taken apart into its fields.
ghost use Rattle.std.specs.Prelude.{◌≡◌};
ghost use Rattle.fields.specs.Lines.{fields};
ghost use Rattle.fields.specs.Parts.{listed, at_most_four};

// The fields of a line, by how many there are: five or more are too many.
#[derive(Clone, Copy)]
pub enum Fields<'a> {
    One(&'a [u8]),
    Two(&'a [u8], &'a [u8]),
    Three(&'a [u8], &'a [u8], &'a [u8]),
    Four(&'a [u8], &'a [u8], &'a [u8], &'a [u8]),
    More,
}

#[inline(always)]
pub fn apart(line: &[u8]) -> Fields<'_>
    ensures { listed result ≡ at_most_four (fields line.now) }
{
    let mut fields = line.split(|byte| *byte == b'\t');
    let Some(a) = fields.next() else {
        return Fields::More;
    };
    let Some(b) = fields.next() else {
        return Fields::One(a);
    };
    let Some(c) = fields.next() else {
        return Fields::Two(a, b);
    };
    let Some(d) = fields.next() else {
        return Fields::Three(a, b, c);
    };
    if fields.next().is_some() {
        return Fields::More;
    }
    Fields::Four(a, b, c, d)
}
