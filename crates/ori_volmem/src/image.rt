// What a crash leaves of a disk.
use ori_bytes::Blob;

/// The bytes of the four files that a crash has left.
#[derive(Drop)]
pub struct Image {
    pub master: Blob,
    pub log_a: Blob,
    pub log_b: Blob,
    pub pages: Blob,
}
