// A list of numbers in a slice of bytes: eight bytes each, two's complement, lowest byte first.
#![tactic(auto)]

ghost use Rattle.std.specs.Prelude.{◌≡◌, ◌+◌, ◌*◌, ◌≤◌, ◌<◌, length, take, drop};
ghost use Rattle.ints.specs.Twos.{twos, bits_of};
ghost use Rattle.numbers.specs.Bytes.{bytes_of, lowest_first, number_at, numbers, encoded};
ghost use Rattle.numbers.specs.Inside.{listed, with_number};

// The word of the eight bytes from k on.
fn word_from(s: &[u8], k: usize) -> u64
    requires { k + 8 ≤ length s.now }
    ensures { result ≡ lowest_first (take 8 (drop k s.now)) }
{
    u64::from_le_bytes([
        s[k],
        s[k + 1],
        s[k + 2],
        s[k + 3],
        s[k + 4],
        s[k + 5],
        s[k + 6],
        s[k + 7],
    ])
}

// A slice of eight bytes becomes those of u.
fn put_word(out: &mut [u8], u: u64)
    requires { length out.old ≡ 8 }
    ensures { out.new ≡ bytes_of 8 u }
{
    out.copy_from_slice(&u.to_le_bytes());
}

// The number of 64 bits.
pub fn from_word(u: u64) -> i64
    ensures { result ≡ twos 64 u }
{
    u.cast_signed()
}

// The 64 bits of a number.
fn to_word(z: i64) -> u64
    ensures { result ≡ bits_of 64 z }
{
    z.cast_unsigned()
}

// The number at i of a list.
pub fn number_at(s: &[u8], i: usize) -> i64
    requires { 8 * i + 8 ≤ length s.now }
    ensures { result ≡ number_at s.now i }
{
    from_word(word_from(s, 8 * i))
}

// Its 64 bits.
pub fn word_at(s: &[u8], i: usize) -> u64
    requires { 8 * i + 8 ≤ length s.now }
    ensures { result ≡ bits_of 64 (number_at s.now i) }
{
    word_from(s, 8 * i)
}

// The number at i of a list becomes z.
pub fn put_number(out: &mut [u8], i: usize, z: i64)
    requires { 8 * i + 8 ≤ length out.old }
    ensures { out.new ≡ with_number out.old i z }
{
    let k = 8 * i;
    let e = k + 8;
    put_word(&mut out[k..e], to_word(z));
}

// The numbers of a list, read.
pub fn read_all(s: &[u8], list: &mut [i64])
    requires { length s.now ≡ 8 * length list.old }
    ensures { list.new ≡ numbers s.now }
{
    for (i, number) in list.iter_mut().enumerate() {
        *number = number_at(s, i);
    }
}

// The numbers of a list, written.
pub fn write_all(list: &[i64], out: &mut [u8])
    requires { length out.old ≡ 8 * length list.now }
    ensures { out.new ≡ encoded list.now }
{
    for (i, number) in list.iter().enumerate() {
        put_number(out, i, *number);
    }
}

// Whether so many bytes are whole numbers, and at most so many.
pub fn is_list(bytes: usize, most: usize) -> bool
    ensures { result ≡ listed bytes most }
{
    bytes % 8 == 0 && bytes / 8 <= most
}
