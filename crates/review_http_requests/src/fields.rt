//! The fields of a head.
ghost use Rattle.std.specs.Prelude.{◌≡◌, ◌≤◌, codes, length, map, min, option_map, All};
ghost use Rattle.httparse.specs.Spans.{header_bytes, IsHeaderWithin};
ghost use Rattle.review_http_requests.specs.Heads.{with_field, occurs, one_value, number_shown, most};
ghost use Rattle.review_http_requests.specs.inner.Words.{seen};

use httparse::spans::HeaderSpan;

/// How a field stands in a head.
#[derive(Clone, Copy)]
pub enum Field<'b> {
    Absent,
    /// It stands once, with this value.
    Once(&'b [u8]),
    Again,
}

fn with_field<'b>(found: Field<'b>, buf: &'b [u8], header: &HeaderSpan, name: &[u8]) -> Field<'b>
    requires { IsHeaderWithin (length buf.now) header.now }
    ensures { seen result ≡ with_field name.now (header_bytes buf.now header.now) (seen found.entry) }
{
    if !header.name.of(buf).eq_ignore_ascii_case(name) {
        return found;
    }
    match found {
        Field::Absent => Field::Once(header.value.of(buf)),
        Field::Once(_) | Field::Again => Field::Again,
    }
}

/// The fields of a head that say something of a delivery.
#[derive(Clone, Copy)]
pub struct Fields<'b> {
    pub caller: Field<'b>,
    pub id: Field<'b>,
    pub epoch: Field<'b>,
    pub coding: Field<'b>,
    pub length: Field<'b>,
}

/// How each of them stands in a head, without regard to the ASCII case of names.
#[tactic(auto, unfolding(crate::specs::Heads::occurs))]
pub fn fields_of<'b>(buf: &'b [u8], headers: &[HeaderSpan]) -> Fields<'b>
    requires { All (IsHeaderWithin (length buf.now)) headers.now }
    ensures caller { seen result.caller ≡ occurs (codes "x-account") (map (header_bytes buf.now) headers.now) }
    ensures id { seen result.id ≡ occurs (codes "request-id") (map (header_bytes buf.now) headers.now) }
    ensures epoch { seen result.epoch ≡ occurs (codes "request-epoch") (map (header_bytes buf.now) headers.now) }
    ensures coding { seen result.coding ≡ occurs (codes "transfer-encoding") (map (header_bytes buf.now) headers.now) }
    ensures length { seen result.length ≡ occurs (codes "content-length") (map (header_bytes buf.now) headers.now) }
{
    let mut fields = Fields {
        caller: Field::Absent,
        id: Field::Absent,
        epoch: Field::Absent,
        coding: Field::Absent,
        length: Field::Absent,
    };
    for header in headers {
        fields.caller = with_field(fields.caller, buf, header, b"x-account");
        fields.id = with_field(fields.id, buf, header, b"request-id");
        fields.epoch = with_field(fields.epoch, buf, header, b"request-epoch");
        fields.coding = with_field(fields.coding, buf, header, b"transfer-encoding");
        fields.length = with_field(fields.length, buf, header, b"content-length");
    }
    fields
}

/// The value of a field that stands once.
pub fn one_value<'b>(found: Field<'b>) -> Option<&'b [u8]>
    ensures { option_map (λ v. v.now) result ≡ one_value (seen found.entry) }
{
    match found {
        Field::Once(value) => Some(value),
        Field::Absent | Field::Again => None,
    }
}

/// The greatest number that is told of digits.
const MOST: usize = 10_000_000;

/// The number of one digit or more, in decimal and perhaps with zeros in front; 10,000,000 for any greater one.
#[tactic(auto, unfolding(crate::specs::Heads::number_shown))]
pub fn number_shown(text: &[u8]) -> Option<usize>
    ensures { result ≡ option_map (λ n. min n most) (number_shown text.now) }
{
    if text.is_empty() {
        return None;
    }
    let mut number = 0usize;
    for b in text {
        if !b.is_ascii_digit() {
            return None;
        }
        number = (number * 10 + (*b - b'0') as usize).min(MOST);
    }
    Some(number)
}
