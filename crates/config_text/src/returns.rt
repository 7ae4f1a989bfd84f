//! Reading a configuration whose lines may end in CR and LF.

ghost use Rattle.std.specs.Prelude.{◌≡◌, IfOk};
ghost use Rattle.std.specs.Option.{option_map};
ghost use Rattle.config_text.specs.Reading.{start, Went};
ghost use Rattle.config_text.specs.Returns.{fed, settled, feed, close, Fed};

use crate::config::Setting;
use crate::reader::Reader;
use std::alloc::{AllocError, Global};
use std::marker::Model;

/// What is known behind a front of a configuration.
#[derive(Drop)]
pub struct TextReader {
    reader: Reader,
    /// Behind a CR, of which the next byte decides.
    returned: bool,
}

impl Model for TextReader {
    ghost use Rattle.config_text.specs.Returns.{Front};

    ghost Value = { Front };

    ghost view = { λ r. record { state = r.reader; returned = r.returned } };
}

impl TextReader {
    pub fn new(alloc: Global) -> TextReader
        ensures { result ≡ fed start }
    {
        TextReader {
            reader: Reader::new(alloc),
            returned: false,
        }
    }

    /// Settles what a CR was, once it is known whether LF follows, before which it is dropped.
    fn settle(&mut self, alloc: Global, feeds: bool) -> Result<bool, AllocError>
        ensures { IfOk result (λ went. Went (settled self.old feeds) went self.new.state) }
    {
        if !self.returned || feeds {
            return Ok(true);
        }
        self.reader.step(alloc, b'\r')
    }

    /// Goes on behind the byte, if some configuration does.
    #[tactic(auto, unfolding(crate::specs::Returns::feed))]
    pub fn feed(&mut self, alloc: Global, byte: u8) -> Result<bool, AllocError>
        ensures { IfOk result (λ went. Fed (feed self.old byte) went self.new) }
    {
        if !self.settle(alloc, byte == b'\n')? {
            return Ok(false);
        }
        self.returned = byte == b'\r';
        if self.returned {
            return Ok(self.reader.may_return());
        }
        self.reader.step(alloc, byte)
    }

    /// The settings, if the text may end there.
    #[tactic(auto, unfolding(crate::specs::Returns::close))]
    pub fn close(mut self, alloc: Global) -> Result<Option<Vec<Setting>>, AllocError>
        ensures { IfOk result (λ found. option_map (λ v. v.items) found ≡ close self) }
    {
        if !self.settle(alloc, false)? {
            return Ok(None);
        }
        if !self.reader.step(alloc, b'\n')? {
            return Ok(None);
        }
        Ok(self.reader.into_settings())
    }
}
