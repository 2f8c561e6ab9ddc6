//! A board over another one, with a watch that hears of each call on it.

ghost use Rattle.std.specs.Prelude.{◌≡◌};

use lock_table::{Move, PartTable};
use lw_word::SlotWord;
use modes_core::{Mode, SessionId, Tag};
use shared_rule::{Board, Busy};
use std::sync::Wait;

/// Hears of each call on a board.
pub trait Watch {
    /// Hears that a call on the board begins.
    fn before(&self);

    /// Hears that a call on the board has ended.
    fn after(&self);
}

/// A board whose watch hears of each call on it, but for those that only ask what it is.
#[derive(Drop)]
pub struct WatchedBoard<B, W> {
    board: B,
    watch: W,
}

impl<B, W> WatchedBoard<B, W> {
    pub fn over(board: B, watch: W) -> Self
        ensures board { result.board ≡ board }
    {
        WatchedBoard { board, watch }
    }

    /// The board that was watched, for which the watching one is given up.
    pub fn into_watched(self) -> B
    where
        W: Drop,
        ensures { result ≡ self.board }
    {
        let WatchedBoard { board, watch: _ } = self;
        board
    }
}

impl<T: PartTable, B: Board<T>, W: Watch> Board<T> for WatchedBoard<B, W> {
    ghost seat = { λ watched. B.seat watched.board };

    ghost view = { λ watched. B.view watched.board };

    ghost stack = { λ watched. B.stack watched.board };

    ghost quiet = { λ watched. B.quiet watched.board };

    fn number(&self) -> SessionId {
        self.board.number()
    }

    fn sessions(&self) -> u16 {
        self.board.sessions()
    }

    fn groups(&self) -> u8 {
        self.board.groups()
    }

    fn take_part<R: Wait>(&mut self, rt: &R, part: u8) -> T {
        self.watch.before();
        let result = self.board.take_part(rt, part);
        self.watch.after();
        result
    }

    fn put_part(&mut self, part: u8, done: &Move, content: T) {
        self.watch.before();
        self.board.put_part(part, done, content);
        self.watch.after();
    }

    fn take_fast<R: Wait>(&mut self, rt: &R, owner: SessionId) {
        self.watch.before();
        self.board.take_fast(rt, owner);
        self.watch.after();
    }

    fn try_take_fast(&mut self) -> Result<(), Busy> {
        self.watch.before();
        let result = self.board.try_take_fast();
        self.watch.after();
        result
    }

    fn put_fast(&mut self, owner: SessionId) {
        self.watch.before();
        self.board.put_fast(owner);
        self.watch.after();
    }

    fn share_fast<R: Wait>(&mut self, rt: &R, owner: SessionId) {
        self.watch.before();
        self.board.share_fast(rt, owner);
        self.watch.after();
    }

    fn unshare_fast(&mut self, owner: SessionId) {
        self.watch.before();
        self.board.unshare_fast(owner);
        self.watch.after();
    }

    fn pass_fast(&mut self, owner: SessionId, tag: &Tag, mode: Mode) {
        self.watch.before();
        self.board.pass_fast(owner, tag, mode);
        self.watch.after();
    }

    fn add_strong(&mut self, tag: &Tag, mode: Mode) {
        self.watch.before();
        self.board.add_strong(tag, mode);
        self.watch.after();
    }

    fn sub_strong(&mut self, tag: &Tag, mode: Mode) {
        self.watch.before();
        self.board.sub_strong(tag, mode);
        self.watch.after();
    }

    fn load_database(&mut self, owner: SessionId) -> u64 {
        self.watch.before();
        let result = self.board.load_database(owner);
        self.watch.after();
        result
    }

    fn store_database(&mut self, database: u32) {
        self.watch.before();
        self.board.store_database(database);
        self.watch.after();
    }

    fn load_slot(&mut self, owner: SessionId, slot: u8) -> SlotWord {
        self.watch.before();
        let result = self.board.load_slot(owner, slot);
        self.watch.after();
        result
    }

    fn load_strong(&mut self, index: u16) -> u64 {
        self.watch.before();
        let result = self.board.load_strong(index);
        self.watch.after();
        result
    }

    fn set_slot(&mut self, slot: u8, shown: SlotWord, tag: &Tag, mode: Mode) {
        self.watch.before();
        self.board.set_slot(slot, shown, tag, mode);
        self.watch.after();
    }

    fn clear_slot(&mut self, slot: u8, shown: SlotWord, tag: &Tag, mode: Mode) {
        self.watch.before();
        self.board.clear_slot(slot, shown, tag, mode);
        self.watch.after();
    }

    fn transfer_slot(
        &mut self,
        owner: SessionId,
        slot: u8,
        shown: SlotWord,
        tag: &Tag,
        mode: Mode,
        strong: Mode,
        content: &T,
    ) {
        self.watch.before();
        self.board
            .transfer_slot(owner, slot, shown, tag, mode, strong, content);
        self.watch.after();
    }

    fn set_waiting(&mut self, tag: &Tag, mode: Mode, content: &T) {
        self.watch.before();
        self.board.set_waiting(tag, mode, content);
        self.watch.after();
    }

    fn mark_granted(
        &mut self,
        part: u8,
        other: SessionId,
        done: &Move,
        woken: &[(SessionId, Mode)],
        content: &T,
    ) {
        self.watch.before();
        self.board.mark_granted(part, other, done, woken, content);
        self.watch.after();
    }

    fn load_wait(&mut self) -> u64 {
        self.watch.before();
        let result = self.board.load_wait();
        self.watch.after();
        result
    }

    fn ask_cancel(&mut self, other: SessionId) -> u64 {
        self.watch.before();
        let result = self.board.ask_cancel(other);
        self.watch.after();
        result
    }

    fn clear_wait(&mut self) {
        self.watch.before();
        self.board.clear_wait();
        self.watch.after();
    }

    fn leave_queue(&mut self, woken: &[(SessionId, Mode)], content: &T) {
        self.watch.before();
        self.board.leave_queue(woken, content);
        self.watch.after();
    }

    fn sleep<R: Wait>(&mut self, rt: &R, shown: u64) {
        self.watch.before();
        self.board.sleep(rt, shown);
        self.watch.after();
    }

    fn wake(&mut self, other: SessionId) {
        self.watch.before();
        self.board.wake(other);
        self.watch.after();
    }
}
