//! The limits of a cache. Each number is said here, and contracts cite it by its name.

/// Bytes of the smallest page.
pub const MIN_PAGE_SIZE: u64 = 16;

/// Bytes of the largest page.
pub const MAX_PAGE_SIZE: u64 = 4_096;

/// The fewest frames of a cache.
pub const MIN_FRAMES: u64 = 48;

/// The most frames of a cache.
pub const MAX_FRAMES: u64 = 65_536;

/// The lowest dirty limit.
pub const MIN_DIRTY_LIMIT: u64 = 16;

/// How many frames more than its dirty limit a cache has, at least.
pub const CLEAN_FRAMES: u64 = 32;

/// The most blocks of a device.
pub const MAX_BLOCKS: u64 = 4_294_967_296;

/// The most files of a cache.
pub const MAX_FILES: u64 = 64;

/// The most handles that are open at once.
pub const MAX_HANDLES: u64 = 1_024;

/// The most requests that are in flight at once.
pub const MAX_IN_FLIGHT: u64 = 64;

/// The most syncs that are in progress at once.
pub const MAX_SYNCS: u64 = 64;

/// The most pages that one call touches.
pub const MAX_TOUCHED: u64 = 16;

/// Bytes of the largest file.
pub const MAX_FILE_SIZE: u64 = 1_099_511_627_776;

/// The last page that a file can have, which is that of the largest file with the smallest pages.
pub const LAST_PAGE: u64 = MAX_FILE_SIZE / MIN_PAGE_SIZE - 1;

/// The most seats of a shared cache.
pub const MAX_SEATS: u64 = 64;

/// Requests begin only while the next serial is below this.
pub const SERIAL_END: u64 = 18_446_744_073_709_551_615;

/// The largest error code of a device. The smallest is 1.
pub const MAX_ERR_CODE: u16 = 4_095;
