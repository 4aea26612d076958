// Linux as variants of the memory manager: seven points in which Linux 6.1 does otherwise than the definitions.

/// Which points are as in Linux. Without any, all is as the definitions have it.
#[derive(Clone, Copy)]
pub struct Variant {
    /// `held-page`. A migration keeps a page that another actor has a reference to: `migrate_vma_check_page`
    /// (mm/migrate_device.c) counts one more. A fault that copies has one (`do_wp_page`, mm/memory.c), and so has an
    /// unmap or exit, of what it takes away, until its gathered pages are freed.
    pub held_page: bool,
    /// `own-read-only`. A look-up takes a page of its own device as it is, whatever was asked for
    /// (`hmm_vma_handle_pte`, mm/hmm.c), and the write then fails (`dmirror_do_fault`, lib/test_hmm.c).
    pub own_read_only: bool,
    /// `exclusive-busy`, with `exclusive-taken-away`. A call for an exclusive page tries the page's lock once, gives up
    /// if the page changed, and keeps the lock until its driver's table is set (`make_device_exclusive_range`,
    /// mm/rmap.c; `dmirror_exclusive`, lib/test_hmm.c).
    pub exclusive_busy: bool,
    /// `exclusive-pins`. Such a call has a reference to the page from before it tries the lock
    /// (`get_user_pages_remote` in `make_device_exclusive_range`, mm/rmap.c), so a migration may keep it.
    pub exclusive_pins: bool,
    /// `unmap-lets-in`. An unmap gives its lock back for one for reading before it takes pages away, and its areas are
    /// gone by then (`do_mas_align_munmap`, mm/mmap.c).
    pub unmap_lets_in: bool,
    /// `first-attach`. The first mirror that a process ever has comes inside no invalidation: its registration takes
    /// the mmap lock and all locks of reverse maps (`__mmu_notifier_register`, mm/mmu_notifier.c).
    pub first_attach: bool,
    /// `whole-snapshot`. A snapshot that an invalidation of its pages met is repeated (`dmirror_range_snapshot`,
    /// lib/test_hmm.c).
    pub whole_snapshot: bool,
}
