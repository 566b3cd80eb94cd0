//! Patterns of keys and settings: `*`, `?`, `[a-z]`, `[^a-z]`, and `\` in front of a byte that stands for itself.
ghost use Rattle.std.specs.Prelude.{◌≡◌, ◌≢◌, ◌<◌, ◌≤◌, ◌↔◌, [], ◌∷◌, ℕ, false, true, min, max, length, drop, IsTrue, IfSome, MatchOption};
ghost use Rattle.commands.specs.Patterns.{Bytes as spelled_bytes, plain, in_class, behind_class as rest_of_class, class_takes, escape_takes, takes, behind_brackets as rest_of_brackets, behind_part as rest_of_part, IsMember, IsWay, Matches};

/// What a class has first, and what stands behind it.
#[derive(Clone, Copy)]
enum Member<'a> {
    /// The end of the class: a `]`, or the end of the pattern.
    End(&'a [u8]),
    /// The bytes from one to another, with both.
    Bytes {
        first: u8,
        last: u8,
        behind: &'a [u8],
    },
}

/// How far a pattern goes along with a text up to its first `*`.
#[derive(Clone, Copy)]
enum Way<'a> {
    /// The pattern matches the text.
    Whole,
    /// It does not.
    Stuck,
    /// Up to a `*`; behind it stands this pattern, and this text is left.
    Star { pattern: &'a [u8], text: &'a [u8] },
}

/// The other end of a range, where a `-` stands in front of it, and what stands behind both.
fn other_end(behind: &[u8]) -> Option<(u8, &[u8])>
    ensures { MatchOption result ((a : ℕ) → plain a behind.now ≡ spelled_bytes a a 0)
        (λ r. behind.now ≡ 45 ∷ r.0 ∷ r.1.now) }
{
    let (dash, rest) = behind.split_first()?;
    let (last, rest) = rest.split_first()?;
    if *dash == b'-' {
        Some((*last, rest))
    } else {
        None
    }
}

/// A byte that is neither a `]` nor a `\`: itself, or one end of a range.
fn plain_member(byte: u8, behind: &[u8]) -> Member<'_>
    requires closes { byte ≢ 93 }
    requires escapes { byte ≢ 92 }
    ensures { IsMember (byte ∷ behind.now) result }
{
    match other_end(behind) {
        Some((other, behind)) => Member::Bytes {
            first: byte.min(other),
            last: byte.max(other),
            behind,
        },
        None => Member::Bytes {
            first: byte,
            last: byte,
            behind,
        },
    }
}

/// The byte behind a `\`, which stands for itself where nothing follows.
fn escaped_member(behind: &[u8]) -> Member<'_>
    ensures { IsMember (92 ∷ behind.now) result }
{
    match behind.split_first() {
        Some((byte, behind)) => Member::Bytes {
            first: *byte,
            last: *byte,
            behind,
        },
        None => Member::Bytes {
            first: b'\\',
            last: b'\\',
            behind,
        },
    }
}

fn member_of(class: &[u8]) -> Member<'_>
    ensures { IsMember class.now result }
{
    let Some((first, behind)) = class.split_first() else {
        return Member::End(class);
    };
    match *first {
        b']' => Member::End(behind),
        b'\\' => escaped_member(behind),
        byte => plain_member(byte, behind),
    }
}

/// Whether the class has the byte, and what stands behind the class.
fn look_up(class: &[u8], byte: u8) -> (bool, &[u8])
    ensures has { result.0 ≡ in_class 0 class.now byte }
    ensures behind { result.1.now ≡ rest_of_class 0 class.now }
{
    let mut found = false;
    let mut rest = class;
    'members: loop {
        match member_of(rest) {
            Member::End(behind) => return (found, behind),
            Member::Bytes {
                first,
                last,
                behind,
            } => {
                found = found || first <= byte && byte <= last;
                rest = behind;
            }
        }
    }
}

/// What stands behind a class, where it takes the byte: has it, or behind a `^` has it not.
fn behind_brackets(class: &[u8], byte: u8) -> Option<&[u8]>
    ensures { MatchOption result (class_takes class.now byte ≡ false)
        (λ behind. (class_takes class.now byte ≡ true) × (behind.now ≡ rest_of_brackets class.now)) }
{
    let (negated, members) = match class.split_first() {
        Some((b'^', members)) => (true, members),
        _ => (false, class),
    };
    let (found, behind) = look_up(members, byte);
    if found == negated { None } else { Some(behind) }
}

/// What stands behind a `\` and the byte that it is to be.
fn behind_escape(behind: &[u8], byte: u8) -> Option<&[u8]>
    ensures { MatchOption result (escape_takes behind.now byte ≡ false)
        (λ rest. (escape_takes behind.now byte ≡ true) × (rest.now ≡ drop 1 behind.now)) }
{
    let (wanted, rest) = match behind.split_first() {
        Some((wanted, rest)) => (*wanted, rest),
        None => (b'\\', behind),
    };
    if wanted == byte { Some(rest) } else { None }
}

/// What stands behind the first part of a pattern, which is no `*`, where that part takes the byte.
fn behind_part(pattern: &[u8], byte: u8) -> Option<&[u8]>
    ensures { MatchOption result (takes pattern.now byte ≡ false)
        (λ behind. (takes pattern.now byte ≡ true) × (behind.now ≡ rest_of_part pattern.now)) }
{
    let (first, behind) = pattern.split_first()?;
    match *first {
        b'?' => Some(behind),
        b'[' => behind_brackets(behind, byte),
        b'\\' => behind_escape(behind, byte),
        wanted if wanted == byte => Some(behind),
        _ => None,
    }
}

fn way_along<'a>(pattern: &'a [u8], text: &'a [u8]) -> Way<'a>
    ensures { IsWay pattern.now text.now result }
{
    let mut parts = pattern;
    let mut left = text;
    'parts: loop {
        let Some((first, behind)) = parts.split_first() else {
            if left.is_empty() {
                return Way::Whole;
            }
            return Way::Stuck;
        };
        if *first == b'*' {
            return Way::Star {
                pattern: behind,
                text: left,
            };
        }
        let Some((byte, rest)) = left.split_first() else {
            return Way::Stuck;
        };
        let Some(behind) = behind_part(parts, *byte) else {
            return Way::Stuck;
        };
        parts = behind;
        left = rest;
    }
}

/// Whether a pattern with a `*` in front of it matches. Where the pattern is stuck, the last `*` takes a byte more; an
/// earlier one need not, since the last can take whatever it would.
fn matches_behind_star(pattern: &[u8], text: &[u8]) -> bool
    ensures { IsTrue result ↔ Matches (42 ∷ pattern.now) text.now }
{
    let mut behind = pattern;
    let mut left = text;
    'stars: loop {
        match way_along(behind, left) {
            Way::Whole => return true,
            Way::Stuck => {
                let Some((_, rest)) = left.split_first() else {
                    return false;
                };
                left = rest;
            }
            Way::Star { pattern, text } => {
                behind = pattern;
                left = text;
            }
        }
    }
}

/// Whether the pattern matches the whole text. Its time is at most the product of both lengths.
pub fn matches(pattern: &[u8], text: &[u8]) -> bool
    ensures { IsTrue result ↔ Matches pattern.now text.now }
{
    match way_along(pattern, text) {
        Way::Whole => true,
        Way::Stuck => false,
        Way::Star { pattern, text } => matches_behind_star(pattern, text),
    }
}
