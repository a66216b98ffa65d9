// The lent tables that hold a file: room for 1,024 session lines and for 32 commands, of sixteen steps each.
ghost use Rattle.std.specs.Prelude.{◌≡◌, length};

#[derive(Drop)]
pub struct FileTables<'a> {
    pub heads: &'a mut [u64],
    pub arguments: &'a mut [u64],
    pub commands: &'a mut [u64],
    pub steps: &'a mut [u64],
    pub ghost heads_length: { length heads.now ≡ 1024 },
    pub ghost arguments_length: { length arguments.now ≡ 1024 },
    pub ghost commands_length: { length commands.now ≡ 32 },
    pub ghost steps_length: { length steps.now ≡ 512 },
}
