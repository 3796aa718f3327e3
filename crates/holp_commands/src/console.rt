// What a conversation reads: a command at a time. When more is asked for, what was given last has been answered: so here a refusal's
// message and the prompt go to standard error. None of it takes part in what is promised of the output.
ghost use Rattle.std.specs.Prelude.{◌≡◌, ◌≤◌, length, false, IfSome};

use crate::feed::Feed;
use crate::scripts::tell_unended;
use hol_device_adapters::IntoCall;
use hol_explain::{Follower, Script, Walk};
use hol_host::Refiners;
use hol_model::{DeviceFail, Source};
use hol_script_commands::cut::{is_blank_text, leading_line_feeds, line_feeds};
use holp_goals::View;
use std::cell::RefCell;
use std::io::Write;

/// A source that gives one command at a time.
#[derive(Drop)]
pub(crate) struct Console<'a, 'b, 'c, H> {
    rt: &'a HostRuntime,
    host: &'c H,
    host_names: &'b [String],
    view: &'b RefCell<View>,
    feed: Feed<'a>,
    // Bytes that were read, of which so many were given.
    read: Vec<u8>,
    given: usize,
    // What was given since the last `;;`.
    command: Vec<u8>,
    // None: there was no memory to follow, and nothing is explained any more.
    follower: Option<Follower>,
    prompts: bool,
    failed: bool,
}

// How many bytes of a text are given where some were given since the last `;;`: up to the next `;;`, and as many as there is room for.
fn next_length(given: &[u8], text: &[u8], room: usize) -> usize
    ensures room { result ≤ room }
    ensures bound { result ≤ length text.now }
{
    let mut is_behind_half = given.ends_with(b";");
    let most = if room < text.len() { room } else { text.len() };
    for at in 0..most {
        let is_half = text[at] == b';';
        if is_half && is_behind_half {
            return at + 1;
        }
        is_behind_half = is_half;
    }
    most
}

impl<'a, 'b, 'c, H: Refiners> Console<'a, 'b, 'c, H> {
    /// A source over a feed, whose commands are run once more over a host for messages, and whose declarations a view takes up.
    pub(crate) fn new(
        rt: &'a HostRuntime,
        host: &'c H,
        host_names: &'b [String],
        view: &'b RefCell<View>,
        feed: Feed<'a>,
        prompts: bool,
    ) -> Console<'a, 'b, 'c, H>
        ensures { result.failed ≡ false }
    {
        let alloc = rt.alloc();
        Console {
            rt,
            host,
            host_names,
            view,
            feed,
            read: Vec::new(alloc),
            given: 0,
            command: Vec::new(alloc),
            follower: Follower::new(alloc).ok(),
            prompts,
            failed: false,
        }
    }

    // Follows the command that was given last, which has been answered.
    fn follow(&mut self)
        ensures { self.new.failed ≡ self.old.failed }
    {
        let Some(command) = self.command.strip_suffix(b";;") else {
            return;
        };
        let alloc = self.rt.alloc();
        if let Ok(mut view) = self.view.try_borrow_mut() {
            let _ = view.learn(alloc, command);
        }
        let script = Script {
            origins: self.feed.origins.as_slice(),
            text: command,
            host_names: self.host_names,
        };
        let mut output = self.rt.stderr();
        let Ok(writes) = Box::new(alloc, move |piece: &[u8]| output.write(piece)) else {
            return;
        };
        if let Some(follower) = &mut self.follower {
            let walk = Walk::new(alloc, &script, self.host);
            let followed = follower.follow(&walk, &mut IntoCall::new(writes));
            if followed.is_err() {
                drop(self.follower.take());
            }
        }
        self.command.clear();
    }

    /// Explains what stands behind the last `;;`, at the end of the input.
    pub(crate) fn end(&self) {
        let alloc = self.rt.alloc();
        let script = Script {
            origins: self.feed.origins.as_slice(),
            text: &self.command,
            host_names: self.host_names,
        };
        let mut output = self.rt.stderr();
        if let Ok(writes) = Box::new(alloc, move |piece: &[u8]| output.write(piece)) {
            if let Some(follower) = &self.follower {
                let walk = Walk::new(alloc, &script, self.host);
                let _ = follower.end(&walk, &mut IntoCall::new(writes));
            }
        }
    }

    // Prompts for a command, or for the rest of one, before the last file is read.
    fn prompt(&self) {
        if !self.prompts || !self.feed.is_last() {
            return;
        }
        let prompt = if is_blank_text(&self.command) {
            "holp> "
        } else {
            "    > "
        };
        let _ = eprint!(self.rt; "{prompt}");
    }

    // Begins the next file, where there is one, and answers whether there is. Tells of a command that no `;;` ends before it. None:
    // there is no memory.
    fn begin_next(&mut self) -> Option<bool>
        ensures { self.new.failed ≡ self.old.failed }
    {
        if self.feed.is_last() {
            if self.prompts {
                let _ = eprintln!(self.rt; "");
            }
            return Some(false);
        }
        let feeds = line_feeds(&self.command);
        let before = self.feed.lines.saturating_sub(feeds);
        let begin = before.saturating_add(leading_line_feeds(&self.command) + 1);
        let between = self.feed.begin_next()?;
        if !is_blank_text(&self.command) {
            let end = self.feed.lines.saturating_add(1);
            tell_unended(self.rt, self.feed.origins.as_slice(), begin, end);
        }
        self.take_up(between)?;
        Some(true)
    }

    // Takes up bytes that are to be given next. None: there is no memory.
    fn take_up(&mut self, bytes: &[u8]) -> Option<()>
        ensures { self.new.failed ≡ self.old.failed }
    {
        self.read.clear();
        self.given = 0;
        self.read.extend_from_slice(bytes).ok()
    }

    // Reads more, where all that was read has been given; nothing more, at the end of the input. None: the input has failed, or there
    // is no memory.
    fn read_more(&mut self) -> Option<()>
        ensures { self.new.failed ≡ self.old.failed }
    {
        let mut buffer = [0u8; 4096];
        for _ in 0..self.feed.steps() {
            self.prompt();
            let count = self.feed.read(&mut buffer)?;
            self.take_up(buffer.get(..count)?)?;
            if count > 0 || !self.begin_next()? || !self.read.is_empty() {
                return Some(());
            }
        }
        Some(())
    }

    // Gives the bytes up to the next `;;`, once what was given last is followed, and answers how many there are: none at the end of the
    // input. None: the input has failed, or there is no memory.
    fn give(&mut self, buf: &mut [u8]) -> Option<usize>
        ensures failed { self.new.failed ≡ self.old.failed }
        ensures bound { IfSome result (λ count. count ≤ length buf.new) }
    {
        self.follow();
        if self.given >= self.read.len() {
            self.read_more()?;
        }
        let rest = self.read.get(self.given..)?;
        let count = next_length(&self.command, rest, buf.len());
        buf[..count].copy_from_slice(&rest[..count]);
        self.command.extend_from_slice(&rest[..count]).ok()?;
        self.given = self.given.saturating_add(count);
        Some(count)
    }
}

impl<H: Refiners> Source for Console<'_, '_, '_, H> {
    ghost has_failed = { λ s. s.failed };

    fn pull(&mut self, buf: &mut [u8]) -> Result<usize, DeviceFail> {
        match self.give(buf) {
            Some(count) => Ok(count),
            None => {
                self.failed = true;
                Err(DeviceFail)
            }
        }
    }

    fn failed(&self) -> bool {
        self.failed
    }
}
