// How many pages have to do with a frame, and whether no page shares what a writable one stands for once an entry was
// made.
ghost use Rattle.std.specs.Prelude.{◌≡◌, unwrap_or};
ghost use Rattle.hm_base.specs.declared.Frame.{Frame as AnyFrame};
ghost use Rattle.hm_history.specs.Memory.Contents.{backing};
ghost use Rattle.hm_history.specs.Memory.Places.{one_writer, places_next};
ghost use Rattle.hm_history.specs.declared.Kind.{Kind as AnyKind};
ghost use Rattle.hm_folds.specs.Standing.{is_backed, one_writer_after, pages_where, shares_where};
ghost use Rattle.hm_flaw_states.specs.Sharing.{has_to_do, is_counted};
ghost use Rattle.hm_flaw_states.specs.States.{all_places, state_in};
ghost use Rattle.hm_flaw_states.specs.Tidy.{IsTidy};

use crate::details::Details;
use crate::here::FlawHere;
use crate::owns::backing;
use crate::placed::Asks;
use hm_base::frames::is_frame;
use hm_base::{Frame, Page, Place, Proc};
use hm_folds::shares::Shares;
use hm_reads::Reads;

/// What a page may have to do with a frame.
#[derive(Clone, Copy)]
pub enum Sharing {
    /// It stands for the frame.
    Standing,
    /// It is a migration entry of the frame.
    Moving,
}

// Whether a page has to do with a frame, and is writable if that is asked.
#[derive(Drop)]
struct SharesFrame<'a> {
    here: &'a FlawHere<'a>,
    sharing: Sharing,
    frame: &'a Frame,
    writes: bool,
}

impl<'a> SharesFrame<'a> {
    fn has_to_do(&self, place: &Place) -> bool
        ensures { result
            ≡ has_to_do self.now.sharing (all_places self.now.here.now.state.now) self.now.frame.now place.now }
    {
        match self.sharing {
            Sharing::Standing => is_frame(backing(self.here, place), self.frame),
            Sharing::Moving => match place {
                Place::Moving { frame, .. } => is_frame(Some(*frame), self.frame),
                _ => false,
            },
        }
    }
}

impl<'a> Asks for SharesFrame<'a> {
    ghost test = { λ x p v. is_counted x.sharing x.writes (all_places x.here.now.state.now) x.frame.now
        ((all_places x.here.now.state.now).place p v) };

    fn test(&self, proc: Proc, page: Page) -> bool {
        let place = self.here.place(proc, page);
        self.has_to_do(&place) && (!self.writes || place.writable())
    }
}

impl<'a> FlawHere<'a> {
    // How many pages have to do with the frame; of the writable ones, if that is asked.
    fn count_shares(&self, sharing: Sharing, frame: &Frame, writes: bool) -> u64
        ensures { result
            ≡ pages_where (all_places self.now.state.now)
            (is_counted sharing writes (all_places self.now.state.now) frame.now) }
    {
        self.state.placed.count(&SharesFrame {
            here: self,
            sharing,
            frame,
            writes,
        })
    }

    // How many pages have to do with the frame, and how many of them are writable.
    fn shares(&self, sharing: Sharing, frame: &Frame) -> Shares
        ensures { result
            ≡ shares_where (all_places self.now.state.now)
            (has_to_do sharing (all_places self.now.state.now) frame.now) }
    {
        Shares {
            pages: self.count_shares(sharing, frame, false),
            writers: self.count_shares(sharing, frame, true),
        }
    }

    // Whether no page of a frame shares it with a writable one after pages have moved to it from another.
    fn has_one_writer_after(
        &self,
        to: &Option<Frame>,
        more: Shares,
        from: &Option<Frame>,
        fewer: Shares,
    ) -> bool
        ensures { result
            ≡ one_writer_after
            (λ (f : AnyFrame). shares_where (all_places self.now.state.now)
            (is_backed (all_places self.now.state.now) f))
            to.now more from.now fewer }
    {
        match to {
            None => true,
            Some(frame) => {
                let all = self.shares(Sharing::Standing, frame);
                let rest = if is_frame(*from, frame) {
                    all.less(fewer)
                } else {
                    all
                };
                rest.has_one_writer_with(more)
            }
        }
    }

    /// Whether no page shares what a writable one stands for once the page has this place.
    pub(crate) fn is_shared_rightly(&self, proc: Proc, page: Page, place: &Place) -> bool
        requires { IsTidy (state_in self.now.state.now).after.places }
        ensures { result
            ≡ one_writer
            (places_next (state_in self.now.state.now).after.places (AnyKind.Place proc page place.now)) }
    {
        let old = self.place(proc, page);
        self.has_one_writer_after(
            &backing(self, place),
            Shares::of_page(place),
            &backing(self, &old),
            Shares::of_page(&old),
        )
    }

    // The frame that a migration entry of a frame stands for.
    fn destination(&self, frame: &Frame) -> Frame
        ensures { result ≡ unwrap_or ((state_in self.now.state.now).after.places.committed_to frame.now) frame.now }
    {
        match self.committed_to(frame) {
            Some(to) => to,
            None => *frame,
        }
    }

    /// Whether no page shares what a writable one stands for once the frame was committed to the other.
    pub(crate) fn may_commit(&self, from: &Frame, to: &Frame) -> bool
        requires { IsTidy (state_in self.now.state.now).after.places }
        ensures { result
            ≡ one_writer
            (places_next (state_in self.now.state.now).after.places (AnyKind.Committed from.now to.now)) }
    {
        let moving = self.shares(Sharing::Moving, from);
        self.has_one_writer_after(&Some(*to), moving, &Some(self.destination(from)), moving)
    }
}
