// Devices that tear a call, and openings that are stopped and begun again.

use super::{Bench, CALLS, Opened, fill};
use pf_book::{FuseDisk, MemDisk, OpenFault};
use pf_disk::Fill;
use std::alloc::AllocError;
use std::sync::Wait;

/// How many fills are known without any bytes.
const PLAIN_FILLS: u32 = 5;

/// What openings came to beside an earlier one.
#[derive(Drop)]
struct Reopened {
    all: u64,
    same: u64,
    /// By how much the epoch is greater than the one that the earlier opening found, at least and at most.
    least: u32,
    most: u32,
}

impl Reopened {
    fn none() -> Reopened {
        Reopened {
            all: 0,
            same: 0,
            least: u32::MAX,
            most: 0,
        }
    }

    /// Counts an opening. An earlier one gave an epoch one greater than it found.
    fn count(&mut self, opened: &Result<Opened, OpenFault>, earlier: &Opened) {
        self.all = self.all.saturating_add(1);
        if let Ok(opened) = opened {
            if opened.kept == earlier.kept {
                self.same = self.same.saturating_add(1);
            }
            let found = earlier.epoch.saturating_sub(1);
            let later = opened.epoch.saturating_sub(found);
            self.least = self.least.min(later);
            self.most = self.most.max(later);
        }
    }

    fn tell(&self, reported: &mut String) -> Result<(), AllocError> {
        let Reopened {
            all,
            same,
            least,
            most,
        } = self;
        write!(reported, "{same} of {all} by {least} to {most}")
    }
}

impl<H: Wait + Drop + Copy> Bench<H> {
    /// Plays an opening and the same line twice on devices that tear each call in turn: the replies and how many calls passed, and by
    /// each fill after how many saves was kept what is opened then.
    pub(super) fn tell_torn(&self, reported: &mut String, line: &str) -> Result<(), AllocError> {
        let lines = format!(in self.alloc; "{line} | {line}")?;
        for calls in 0..CALLS {
            write!(reported, "\n  behind {calls} calls:")?;
            self.tell_torn_call(reported, calls, &lines)?;
        }
        Ok(())
    }

    // The replies are told behind the first of the fills that they stand for.
    fn tell_torn_call(
        &self,
        reported: &mut String,
        calls: u64,
        lines: &str,
    ) -> Result<(), AllocError> {
        let mut last = String::new(self.alloc);
        for number in 0..PLAIN_FILLS {
            let disk = FuseDisk::torn(self.alloc, self.device()?, calls, fill(number, &[]));
            let (replies, disk) = self.played(disk, lines)?;
            let text = format!(in self.alloc; "{replies}, {} passed; then", disk.passed())?;
            if text != last {
                write!(reported, " {text}")?;
                last = text;
            }
            reported.push(' ')?;
            let bytes = disk.into_inner().image(self.alloc, u64::MAX, Fill::New)?;
            self.tell_place(reported, bytes)?;
        }
        Ok(())
    }

    /// Writes by call and by plain fill after how many saves what a crash leaves was kept, and by call what comes of openings that are
    /// stopped in each of their calls by each plain fill, once and twice.
    pub(super) fn tell_stopped(
        &self,
        reported: &mut String,
        disk: &MemDisk,
    ) -> Result<(), AllocError> {
        for moment in 1..disk.calls().saturating_add(2) {
            write!(reported, "\n  in call {moment}:")?;
            let (mut second, mut third) = (Reopened::none(), Reopened::none());
            for number in 0..PLAIN_FILLS {
                let image = self.left(disk, moment, number)?;
                self.tell_stopped_image(reported, image, &mut second, &mut third)?;
            }
            reported.push_str("; ")?;
            second.tell(reported)?;
            reported.push_str("; ")?;
            third.tell(reported)?;
        }
        Ok(())
    }

    fn tell_stopped_image(
        &self,
        reported: &mut String,
        image: Vec<u8>,
        second: &mut Reopened,
        third: &mut Reopened,
    ) -> Result<(), AllocError> {
        reported.push(' ')?;
        match self.opened(image)? {
            Ok(first) => {
                self.tell_saves(reported, &first.kept)?;
                for image in self.images_of(&first.disk)? {
                    self.open_again(image, &first, second, third)?;
                }
                Ok(())
            }
            Err(fault) => write!(reported, "{fault:?}"),
        }
    }

    // Opens what a stop in an opening left, and what stops in that opening leave in turn.
    fn open_again(
        &self,
        image: Vec<u8>,
        first: &Opened,
        second: &mut Reopened,
        third: &mut Reopened,
    ) -> Result<(), AllocError> {
        let again = self.opened(image)?;
        second.count(&again, first);
        if let Ok(opened) = again {
            for image in self.images_of(&opened.disk)? {
                third.count(&self.opened(image)?, first);
            }
        }
        Ok(())
    }

    // What crashes in each of a device's calls leave by each plain fill, each image once.
    fn images_of(&self, disk: &MemDisk) -> Result<Vec<Vec<u8>>, AllocError> {
        let mut images = Vec::new(self.alloc);
        for moment in 1..disk.calls().saturating_add(2) {
            for number in 0..PLAIN_FILLS {
                let image = self.left(disk, moment, number)?;
                if !images.iter().any(|other| *other == image) {
                    images.push(image)?;
                }
            }
        }
        Ok(images)
    }
}
