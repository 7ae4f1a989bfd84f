//! Reading a configuration byte by byte.

ghost use Rattle.std.specs.Prelude.{◌≡◌, IfOk, true, Some, [], ◌∷◌, codes};
ghost use Rattle.std.specs.Option.{option_map};
ghost use Rattle.std.specs.Char.{to_ascii_lowercase};
ghost use Rattle.config_text.specs.declared.place.Place.TheVariants as place;
ghost use Rattle.config_text.specs.Reading.{start, moved, with_setting, with_content, with_blank, behind_end, at_item, at_front, in_section, behind_section, behind_backslash, in_sub, behind_sub, behind_key, in_key, in_value, in_quotes, in_escape, in_comment, step, may_return, whole, Went};

use crate::bytes::{escaped, is_end, is_include, is_key_byte, is_section_byte, is_sub_byte};
use crate::config::Setting;
use crate::place::Place;
use seq_base::{Bytes, is_blank};
use std::alloc::{AllocError, Global};
use std::marker::Model;

/// What is known behind a front of a configuration without the CRs that are dropped.
#[derive(Drop)]
pub struct Reader {
    place: Place,
    settings: Vec<Setting>,
    section: Vec<u8>,
    sub: Vec<u8>,
    key: Vec<u8>,
    /// The value so far, without the blanks at its end.
    value: Vec<u8>,
    blanks: Vec<u8>,
}

impl Model for Reader {
    ghost use Rattle.config_text.specs.Reading.{State};

    ghost Value = { State };

    ghost view = { λ r. record { place = r.place; settings = r.settings.items; section = r.section.items; sub = r.sub.items; key = r.key.items; value = r.value.items; blanks = r.blanks.items } };
}

fn bytes_of(alloc: Global, bytes: &[u8]) -> Result<Bytes, AllocError>
    ensures { IfOk result (λ b. b ≡ bytes.now) }
{
    Ok(Bytes::from_vec(Vec::from_slice(alloc, bytes)?))
}

/// Where one stands behind the byte that ends a setting.
fn behind_end(byte: u8) -> Place
    ensures { result ≡ behind_end byte }
{
    if byte == b'\n' {
        Place::Start
    } else {
        Place::Comment
    }
}

impl Reader {
    pub fn new(alloc: Global) -> Reader
        ensures { result ≡ start }
    {
        Reader {
            place: Place::Start,
            settings: Vec::new(alloc),
            section: Vec::new(alloc),
            sub: Vec::new(alloc),
            key: Vec::new(alloc),
            value: Vec::new(alloc),
            blanks: Vec::new(alloc),
        }
    }

    fn go_to(&mut self, place: Place) -> bool
        ensures moved { self.new ≡ moved place self.old }
        ensures went { result ≡ true }
    {
        self.place = place;
        true
    }

    /// Keeps the setting that is now whole, unless it names another file.
    fn keep(&mut self, alloc: Global) -> Result<(), AllocError>
        ensures { IfOk result (λ _. self.new ≡ with_setting self.old) }
    {
        if is_include(self.section.as_slice()) {
            return Ok(());
        }
        let setting = Setting {
            section: bytes_of(alloc, self.section.as_slice())?,
            sub: bytes_of(alloc, self.sub.as_slice())?,
            key: bytes_of(alloc, self.key.as_slice())?,
            value: bytes_of(alloc, self.value.as_slice())?,
        };
        self.settings.push(setting)?;
        Ok(())
    }

    /// Adds a byte to the value, behind the blanks that stand before it.
    fn add(&mut self, place: Place, byte: u8) -> Result<(), AllocError>
        ensures { IfOk result (λ _. self.new ≡ with_content place self.old byte) }
    {
        self.value.extend_from_slice(self.blanks.as_slice())?;
        self.value.push(byte)?;
        self.blanks.clear();
        self.place = place;
        Ok(())
    }

    fn add_blank(&mut self, byte: u8) -> Result<(), AllocError>
        ensures { IfOk result (λ _. self.new ≡ with_blank self.old byte) }
    {
        if !self.value.is_empty() {
            self.blanks.push(byte)?;
        }
        Ok(())
    }

    fn begin_key(&mut self, byte: u8) -> Result<bool, AllocError>
        ensures { IfOk result (λ went. Went (Some (record self.old { place = place.Key; key = to_ascii_lowercase byte ∷ []; value = codes "true" })) went self.new) }
    {
        self.key.clear();
        self.key.push(byte.to_ascii_lowercase())?;
        self.value.clear();
        self.value.extend_from_slice(b"true")?;
        Ok(self.go_to(Place::Key))
    }

    /// A setting or a comment may begin; behind a blank one stands at the place.
    fn at_item(&mut self, place: Place, byte: u8) -> Result<bool, AllocError>
        ensures { IfOk result (λ went. Went (at_item place self.old byte) went self.new) }
    {
        if is_end(byte) {
            return Ok(self.go_to(behind_end(byte)));
        }
        if is_blank(byte) {
            return Ok(self.go_to(place));
        }
        if !byte.is_ascii_alphabetic() || self.section.is_empty() {
            return Ok(false);
        }
        self.begin_key(byte)
    }

    fn at_front(&mut self, byte: u8) -> Result<bool, AllocError>
        ensures { IfOk result (λ went. Went (at_front self.old byte) went self.new) }
    {
        if byte != b'[' {
            return self.at_item(Place::Indented, byte);
        }
        self.section.clear();
        self.sub.clear();
        Ok(self.go_to(Place::Section))
    }

    fn in_section(&mut self, byte: u8) -> Result<bool, AllocError>
        ensures { IfOk result (λ went. Went (in_section self.old byte) went self.new) }
    {
        if is_section_byte(byte) {
            self.section.push(byte.to_ascii_lowercase())?;
            return Ok(true);
        }
        if self.section.is_empty() {
            return Ok(false);
        }
        if byte == b']' {
            return Ok(self.go_to(Place::BehindHeader));
        }
        if is_blank(byte) {
            return Ok(self.go_to(Place::BehindSection));
        }
        Ok(false)
    }

    fn behind_section(&mut self, byte: u8) -> bool
        ensures { Went (behind_section self.old byte) result self.new }
    {
        if is_blank(byte) {
            return true;
        }
        if byte == b'"' {
            return self.go_to(Place::Sub);
        }
        false
    }

    fn behind_backslash(&mut self, byte: u8) -> Result<bool, AllocError>
        ensures { IfOk result (λ went. Went (behind_backslash self.old byte) went self.new) }
    {
        if !is_sub_byte(byte) {
            return Ok(false);
        }
        self.sub.push(byte)?;
        Ok(self.go_to(Place::Sub))
    }

    fn in_sub(&mut self, byte: u8) -> Result<bool, AllocError>
        ensures { IfOk result (λ went. Went (in_sub self.old byte) went self.new) }
    {
        if byte == b'"' {
            return Ok(self.go_to(Place::BehindSub));
        }
        if byte == b'\\' {
            return Ok(self.go_to(Place::SubEscape));
        }
        self.behind_backslash(byte)
    }

    fn behind_sub(&mut self, byte: u8) -> bool
        ensures { Went (behind_sub self.old byte) result self.new }
    {
        if byte == b']' {
            return self.go_to(Place::BehindHeader);
        }
        false
    }

    fn behind_key(&mut self, alloc: Global, byte: u8) -> Result<bool, AllocError>
        ensures { IfOk result (λ went. Went (behind_key self.old byte) went self.new) }
    {
        if byte == b'=' {
            self.value.clear();
            self.blanks.clear();
            return Ok(self.go_to(Place::Value));
        }
        if is_blank(byte) {
            return Ok(self.go_to(Place::BehindKey));
        }
        if !is_end(byte) {
            return Ok(false);
        }
        self.keep(alloc)?;
        Ok(self.go_to(behind_end(byte)))
    }

    fn in_key(&mut self, alloc: Global, byte: u8) -> Result<bool, AllocError>
        ensures { IfOk result (λ went. Went (in_key self.old byte) went self.new) }
    {
        if !is_key_byte(byte) {
            return self.behind_key(alloc, byte);
        }
        self.key.push(byte.to_ascii_lowercase())?;
        Ok(true)
    }

    fn in_value(&mut self, alloc: Global, byte: u8) -> Result<bool, AllocError>
        ensures { IfOk result (λ went. Went (in_value self.old byte) went self.new) }
    {
        if is_end(byte) {
            self.keep(alloc)?;
            return Ok(self.go_to(behind_end(byte)));
        }
        if byte == b'"' {
            return Ok(self.go_to(Place::Quoted));
        }
        if byte == b'\\' {
            return Ok(self.go_to(Place::ValueEscape));
        }
        if is_blank(byte) {
            self.add_blank(byte)?;
            return Ok(true);
        }
        self.add(Place::Value, byte)?;
        Ok(true)
    }

    fn in_quotes(&mut self, byte: u8) -> Result<bool, AllocError>
        ensures { IfOk result (λ went. Went (in_quotes self.old byte) went self.new) }
    {
        match byte {
            b'\n' => Ok(false),
            b'"' => Ok(self.go_to(Place::Value)),
            b'\\' => Ok(self.go_to(Place::QuotedEscape)),
            _ => {
                self.add(Place::Quoted, byte)?;
                Ok(true)
            }
        }
    }

    fn in_escape(&mut self, place: Place, byte: u8) -> Result<bool, AllocError>
        ensures { IfOk result (λ went. Went (in_escape place self.old byte) went self.new) }
    {
        if byte == b'\n' {
            return Ok(self.go_to(place));
        }
        match escaped(byte) {
            Some(shown) => {
                self.add(place, shown)?;
                Ok(true)
            }
            None => Ok(false),
        }
    }

    fn in_comment(&mut self, byte: u8) -> bool
        ensures { Went (in_comment self.old byte) result self.new }
    {
        if byte == b'\n' {
            return self.go_to(Place::Start);
        }
        true
    }

    /// Goes on behind the byte, if it may stand there.
    #[tactic(auto, unfolding(crate::specs::Reading::step))]
    pub fn step(&mut self, alloc: Global, byte: u8) -> Result<bool, AllocError>
        ensures { IfOk result (λ went. Went (step self.old byte) went self.new) }
    {
        match self.place {
            Place::Start => self.at_front(byte),
            Place::Indented => self.at_front(byte),
            Place::Section => self.in_section(byte),
            Place::BehindSection => Ok(self.behind_section(byte)),
            Place::Sub => self.in_sub(byte),
            Place::SubEscape => self.behind_backslash(byte),
            Place::BehindSub => Ok(self.behind_sub(byte)),
            Place::BehindHeader => self.at_item(Place::BehindHeader, byte),
            Place::Key => self.in_key(alloc, byte),
            Place::BehindKey => self.behind_key(alloc, byte),
            Place::Value => self.in_value(alloc, byte),
            Place::ValueEscape => self.in_escape(Place::Value, byte),
            Place::Quoted => self.in_quotes(byte),
            Place::QuotedEscape => self.in_escape(Place::Quoted, byte),
            Place::Comment => Ok(self.in_comment(byte)),
        }
    }

    /// Whether a CR may stand there, or LF, before which it is dropped.
    pub fn may_return(&self) -> bool
        ensures { result ≡ may_return self.now.place }
    {
        self.place.may_return()
    }

    /// The settings, if a line has ended.
    pub fn into_settings(self) -> Option<Vec<Setting>>
        ensures { option_map (λ v. v.items) result ≡ whole (Some self) }
    {
        match self.place {
            Place::Start => Some(self.settings),
            _ => None,
        }
    }
}
