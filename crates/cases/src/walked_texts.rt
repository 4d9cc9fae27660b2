//! Looking things up in texts.

/// Whether a wiring chart or a legend has a wire.
pub fn has_wire(text: &str, from: &str, to: &str) -> bool {
    for line in text.lines() {
        if is_wire(line, from, to) {
            return true;
        }
    }
    false
}

// Whether a line is that of a wire.
fn is_wire(line: &str, from: &str, to: &str) -> bool {
    match line.strip_prefix("WIRE ") {
        Some(wire) => are_ends(wire, from, to),
        None => false,
    }
}

// Whether hubs with a blank between them are those of a wire.
fn are_ends(wire: &str, from: &str, to: &str) -> bool {
    match wire.split_once(' ') {
        Some((exit, entry)) => exit == from && entry == to,
        None => false,
    }
}

/// Whether a wiring chart has a jack of a wheel.
pub fn has_jack(text: &str, jack: &str, wheel: u8) -> bool {
    for line in text.lines() {
        if is_jack(line, jack, wheel) {
            return true;
        }
    }
    false
}

// Whether a line is that of a jack of a wheel.
fn is_jack(line: &str, jack: &str, wheel: u8) -> bool {
    match line.strip_prefix(jack) {
        Some(number) => number_of(number) == u32::from(wheel),
        None => false,
    }
}

/// The line of a text with a number, counted from 1; an empty one where there is none.
pub fn line_numbered(text: &str, number: u32) -> &str {
    let mut count = 0u32;
    for line in text.lines() {
        count = count.saturating_add(1);
        if count == number {
            return line;
        }
    }
    ""
}

/// The character with a number in a line, counted from 1; a blank where there is none.
pub fn character_at(line: &str, number: u32) -> u8 {
    let mut count = 0u32;
    for byte in line.as_bytes() {
        count = count.saturating_add(1);
        if count == number {
            return *byte;
        }
    }
    b' '
}

/// The number that digits spell; 0 where there are none.
pub fn number_of(digits: &str) -> u32 {
    let mut number = 0u32;
    for byte in digits.as_bytes() {
        number = number
            .saturating_mul(10)
            .saturating_add(u32::from(byte.saturating_sub(b'0')));
    }
    number
}

/// The rows of a character in a text of the card code, whose lines begin with the character and a blank; none where it has no line.
pub fn rows_in(code: &str, character: u8) -> &str {
    for line in code.lines() {
        if character_at(line, 1) == character {
            return behind_blank(line);
        }
    }
    ""
}

// What stands behind the first blank of a line.
fn behind_blank(line: &str) -> &str {
    match line.split_once(' ') {
        Some((_, rest)) => rest,
        None => "",
    }
}

/// Whether a list of words, a blank between each two, has a word.
pub fn has_word(words: &str, wanted: &str) -> bool {
    for word in words.split(' ') {
        if word == wanted {
            return true;
        }
    }
    false
}

/// The word with a number in a list of words, counted from 1; an empty one where there is none.
pub fn word_numbered(words: &str, number: u32) -> &str {
    let mut count = 0u32;
    for word in words.split(' ') {
        count = count.saturating_add(1);
        if count == number {
            return word;
        }
    }
    ""
}

/// Whether a legend has a wire under the line of the chart with a number. An empty line ends what is told of each line.
pub fn is_asked(legend: &str, number: &str, from: &str, to: &str) -> bool {
    for told in legend.split("\n\n") {
        if is_told_of(told, number) && has_wire(told, from, to) {
            return true;
        }
    }
    false
}

// Whether something is told of the line with a number.
fn is_told_of(told: &str, number: &str) -> bool {
    match told.strip_prefix("line ") {
        Some(line) => begins_with(line, number),
        None => false,
    }
}

// Whether a number and a colon begin a line.
fn begins_with(line: &str, number: &str) -> bool {
    match line.split_once(':') {
        Some((found, _)) => found == number,
        None => false,
    }
}
