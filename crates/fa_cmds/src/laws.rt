//! Laws of the definitions, each the contract of a function with no code.
ghost use Rattle.std.specs.Prelude.{◌≡◌, ℕ, ◌^◌, ◌<◌, length};
ghost use Rattle.fa_cmds.specs.Requests.{request_bytes, reply_bytes, IsRequest};
ghost use Rattle.fa_cmds.specs.declared.reply.ReplyCode.{ReplyCode};
ghost use Rattle.fa_cmds.specs.declared.request.Request.{Request};

/// 28 bytes are those of one request alone.
pub fn one_request()
    ensures { (r s : Request) → IsRequest r → IsRequest s → request_bytes r ≡ request_bytes s
        → r ≡ s }
{}

/// 16 bytes are those of one code and one cookie alone.
pub fn one_reply()
    ensures { (a b : ReplyCode) (x y : ℕ) → x < 2 ^ 64 → y < 2 ^ 64
        → reply_bytes a x ≡ reply_bytes b y → (a ≡ b) × (x ≡ y) }
{}

/// Each request has 28 bytes.
pub fn request_length()
    ensures { (r : Request) → length (request_bytes r) ≡ 28 }
{}

/// Each reply has 16 bytes.
pub fn reply_length()
    ensures { (code : ReplyCode) (cookie : ℕ) → length (reply_bytes code cookie) ≡ 16 }
{}
