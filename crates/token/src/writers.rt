// The writers of commands, with the fields of each in the order of its list, one by one as C lends them. After 0 the first command_len bytes of the output are the command.
ghost use Rattle.std.specs.Prelude.{◌≡◌, length};
ghost use Rattle.model.specs.Writer.{write_command, to_get_info, to_register, to_sign, to_deregister, to_open_settings};
ghost use Rattle.token.specs.Written.{wrote, returned_bytes};

use crate::told::tell;
use command_writer::marked::Marked;
use command_writer::writers::{
    Deregister, Register, Sign, write_deregister, write_get_info, write_open_settings,
    write_register, write_sign,
};

// Writes GetInfo.
pub fn uaf_write_get_info(command: &mut [u8], command_len: &mut usize) -> u32
    ensures { wrote result command_len.new command.new
        ≡ returned_bytes (write_command to_get_info (length command.old))
        (wrote 0 command_len.old command.old) }
{
    let done = write_get_info(command);
    tell(done, command_len)
}

// Writes a Register.
pub fn uaf_write_register(
    app_id_given: u32,
    app_id: &[u8],
    challenge: &[u8],
    username: &[u8],
    attestation: u32,
    access_token: &[u8],
    verify_token_given: u32,
    verify_token: &[u8],
    command: &mut [u8],
    command_len: &mut usize,
) -> u32
    ensures { wrote result command_len.new command.new
        ≡ returned_bytes
        (write_command
        (to_register app_id_given app_id.now challenge.now username.now attestation access_token.now
        verify_token_given verify_token.now)
        (length command.old))
        (wrote 0 command_len.old command.old) }
{
    let fields = Register {
        app_id: Marked {
            mark: app_id_given,
            value: app_id,
        },
        challenge,
        username,
        attestation,
        access_token,
        verify_token: Marked {
            mark: verify_token_given,
            value: verify_token,
        },
    };
    let done = write_register(&fields, command);
    tell(done, command_len)
}

// Writes a Sign.
pub fn uaf_write_sign(
    app_id_given: u32,
    app_id: &[u8],
    challenge: &[u8],
    content_given: u32,
    content: &[u8],
    access_token: &[u8],
    verify_token_given: u32,
    verify_token: &[u8],
    handles: &[u8],
    handle_sizes: &[usize],
    command: &mut [u8],
    command_len: &mut usize,
) -> u32
    ensures { wrote result command_len.new command.new
        ≡ returned_bytes
        (write_command
        (to_sign app_id_given app_id.now challenge.now content_given content.now access_token.now
        verify_token_given verify_token.now handles.now handle_sizes.now)
        (length command.old))
        (wrote 0 command_len.old command.old) }
{
    let fields = Sign {
        app_id: Marked {
            mark: app_id_given,
            value: app_id,
        },
        challenge,
        content: Marked {
            mark: content_given,
            value: content,
        },
        access_token,
        verify_token: Marked {
            mark: verify_token_given,
            value: verify_token,
        },
        handles,
        handle_sizes,
    };
    let done = write_sign(&fields, command);
    tell(done, command_len)
}

// Writes a Deregister.
pub fn uaf_write_deregister(
    app_id_given: u32,
    app_id: &[u8],
    key_id: &[u8],
    access_token: &[u8],
    command: &mut [u8],
    command_len: &mut usize,
) -> u32
    ensures { wrote result command_len.new command.new
        ≡ returned_bytes
        (write_command (to_deregister app_id_given app_id.now key_id.now access_token.now)
        (length command.old))
        (wrote 0 command_len.old command.old) }
{
    let fields = Deregister {
        app_id: Marked {
            mark: app_id_given,
            value: app_id,
        },
        key_id,
        access_token,
    };
    let done = write_deregister(&fields, command);
    tell(done, command_len)
}

// Writes Open settings.
pub fn uaf_write_open_settings(command: &mut [u8], command_len: &mut usize) -> u32
    ensures { wrote result command_len.new command.new
        ≡ returned_bytes (write_command to_open_settings (length command.old))
        (wrote 0 command_len.old command.old) }
{
    let done = write_open_settings(command);
    tell(done, command_len)
}
