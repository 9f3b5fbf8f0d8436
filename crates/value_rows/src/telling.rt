// Answers, told one behind another.
use smithy_types::Text;
use std::alloc::Global;
use test_rows::{Failed, told_bytes};

// How often a character may stand at the end of a text that is told as it is.
const SHORT: usize = 100;

/// What was answered so far, with `; ` between.
#[derive(Drop)]
pub struct Told {
    alloc: Global,
    text: Text,
}

impl Told {
    /// Nothing yet. It takes memory.
    pub fn new(alloc: Global) -> Result<Told, Failed> {
        let text = Text::from_str(alloc, "")?;
        Ok(Told { alloc, text })
    }

    /// All that was told.
    pub fn into_text(self) -> Text {
        self.text
    }

    /// Where the text is kept.
    pub fn alloc(&self) -> Global {
        self.alloc
    }

    /// Tells a word.
    pub fn tell(&mut self, word: &str) -> Result<(), Failed> {
        if !self.text.as_str().is_empty() {
            self.text.push_str("; ")?;
        }
        self.text.push_str(word)?;
        Ok(())
    }

    /// Tells a word and a text behind it.
    pub fn tell_text(&mut self, word: &str, text: &str) -> Result<(), Failed> {
        self.tell(word)?;
        self.text.push_str(" ")?;
        self.text.push_str(shortened(self.alloc, text)?.as_str())?;
        Ok(())
    }

    /// Tells `Some` and a text, or `None`.
    pub fn tell_option(&mut self, text: Option<&str>) -> Result<(), Failed> {
        match text {
            Some(text) => self.tell_text("Some", text),
            None => self.tell("None"),
        }
    }

    /// Tells a word and the bytes behind it.
    pub fn tell_bytes(&mut self, word: &str, bytes: &[u8]) -> Result<(), Failed> {
        let text = told_bytes(self.alloc, bytes)?;
        self.tell_text(word, text.as_str())
    }

    /// Tells a word and a number behind it.
    pub fn tell_count(&mut self, word: &str, count: usize) -> Result<(), Failed> {
        let text = format!(in self.alloc; "{count}")?;
        self.tell_text(word, text.as_str())
    }

    /// Tells a word where it is so, and `no` before it where it isn't.
    pub fn tell_flag(&mut self, word: &str, holds: bool) -> Result<(), Failed> {
        if holds {
            self.tell(word)
        } else {
            self.tell_text("no", word)
        }
    }
}

/// A text as it is told: more than 100 of the same character at its end as that and how often it stands. It takes memory.
fn shortened(alloc: Global, text: &str) -> Result<Text, Failed> {
    let Some(last) = text.chars().next_back() else {
        return Ok(Text::from_str(alloc, "")?);
    };
    let front = text.trim_end_matches(last);
    let count = text.len().saturating_sub(front.len());
    if count <= SHORT {
        return Ok(Text::from_str(alloc, text)?);
    }
    Ok(Text::from_string(format!(in alloc; "{front}({last} x {count})")?))
}

/// `true` or `false`. It takes memory.
pub fn told_flag(alloc: Global, holds: bool) -> Result<Text, Failed> {
    let word = if holds { "true" } else { "false" };
    Ok(Text::from_str(alloc, word)?)
}
