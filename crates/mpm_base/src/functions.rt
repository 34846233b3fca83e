//! The functions of kernel calls, which a process names in its register C, by their names in the guide. (MP/M II
//! Programmer's Guide, "BDOS Function Calls", "XDOS Function Calls".)

/// Ends the program.
pub const SYSTEM_RESET: u8 = 0;

/// Takes a key of the console and shows it.
pub const CONSOLE_INPUT: u8 = 1;

/// Writes a byte to the console, tabs expanded.
pub const CONSOLE_OUTPUT: u8 = 2;

/// Takes a key of the console as it is.
pub const RAW_CONSOLE_INPUT: u8 = 3;

/// Writes a byte to the console as it is.
pub const RAW_CONSOLE_OUTPUT: u8 = 4;

/// Writes a byte to the printer.
pub const LIST_OUTPUT: u8 = 5;

/// Writes a byte to the console as it is, takes a key, or asks whether one is there.
pub const DIRECT_CONSOLE_IO: u8 = 6;

/// Writes a string, up to its dollar sign, to the console.
pub const PRINT_STRING: u8 = 9;

/// Reads a line from the console, which can be corrected.
pub const READ_CONSOLE_BUFFER: u8 = 10;

/// Asks whether a key of the console is there.
pub const GET_CONSOLE_STATUS: u8 = 11;

/// Tells the version of the file system.
pub const RETURN_VERSION_NUMBER: u8 = 12;

/// Resets all drives, and selects the first.
pub const RESET_DISK_SYSTEM: u8 = 13;

/// Selects a drive.
pub const SELECT_DISK: u8 = 14;

/// Opens a file.
pub const OPEN_FILE: u8 = 15;

/// Closes a file.
pub const CLOSE_FILE: u8 = 16;

/// Finds the first file that fits a pattern.
pub const SEARCH_FOR_FIRST: u8 = 17;

/// Finds the next file that fits it.
pub const SEARCH_FOR_NEXT: u8 = 18;

/// Deletes the files that fit a pattern.
pub const DELETE_FILE: u8 = 19;

/// Reads the next records of a file.
pub const READ_SEQUENTIAL: u8 = 20;

/// Writes the next records of a file.
pub const WRITE_SEQUENTIAL: u8 = 21;

/// Makes a file.
pub const MAKE_FILE: u8 = 22;

/// Renames a file.
pub const RENAME_FILE: u8 = 23;

/// Tells which drives are mounted.
pub const RETURN_LOGIN_VECTOR: u8 = 24;

/// Tells the selected drive.
pub const RETURN_CURRENT_DISK: u8 = 25;

/// Sets the address of records in memory.
pub const SET_DMA_ADDRESS: u8 = 26;

/// Protects the selected drive from writing.
pub const WRITE_PROTECT_DISK: u8 = 28;

/// Tells which drives are protected from writing.
pub const GET_READ_ONLY_VECTOR: u8 = 29;

/// Sets the attributes of a file.
pub const SET_FILE_ATTRIBUTES: u8 = 30;

/// Tells the address of the selected drive's parameters.
pub const GET_DISK_PARAMETERS: u8 = 31;

/// Sets or tells the user.
pub const SET_GET_USER_CODE: u8 = 32;

/// Reads records at a place of a file.
pub const READ_RANDOM: u8 = 33;

/// Writes records at a place of a file.
pub const WRITE_RANDOM: u8 = 34;

/// Tells how many records a file has.
pub const COMPUTE_FILE_SIZE: u8 = 35;

/// Tells at which place of a file the next record is.
pub const SET_RANDOM_RECORD: u8 = 36;

/// Resets some drives.
pub const RESET_DRIVE: u8 = 37;

/// Marks some drives as accessed.
pub const ACCESS_DRIVE: u8 = 38;

/// Gives some drives back.
pub const FREE_DRIVE: u8 = 39;

/// Writes records at a place of a file, in blocks that begin as zeros.
pub const WRITE_RANDOM_WITH_ZERO_FILL: u8 = 40;

/// Writes records that haven't changed meanwhile.
pub const TEST_AND_WRITE_RECORD: u8 = 41;

/// Locks records of a file.
pub const LOCK_RECORD: u8 = 42;

/// Unlocks records of a file.
pub const UNLOCK_RECORD: u8 = 43;

/// Sets how many records a call moves.
pub const SET_MULTI_SECTOR_COUNT: u8 = 44;

/// Sets what becomes of errors of the file system.
pub const SET_BDOS_ERROR_MODE: u8 = 45;

/// Tells how many records are free on a drive.
pub const GET_DISK_FREE_SPACE: u8 = 46;

/// Ends the program, and begins another one.
pub const CHAIN_TO_PROGRAM: u8 = 47;

/// Writes what is yet to be written.
pub const FLUSH_BUFFERS: u8 = 48;

/// Makes or changes the label of a directory.
pub const SET_DIRECTORY_LABEL: u8 = 100;

/// Tells what the label of a directory says.
pub const RETURN_DIRECTORY_LABEL_DATA: u8 = 101;

/// Reads a file's password mode and stamps.
pub const READ_FILE_XFCB: u8 = 102;

/// Sets a file's password and its mode.
pub const WRITE_FILE_XFCB: u8 = 103;

/// Sets the date and the time of the day.
pub const SET_DATE_AND_TIME: u8 = 104;

/// Tells the date and the time of the day; the second is the answer.
pub const GET_DATE_AND_TIME: u8 = 105;

/// Sets the password that files are opened with.
pub const SET_DEFAULT_PASSWORD: u8 = 106;

/// Reserves the memory segment of a base page.
pub const ABSOLUTE_MEMORY_REQUEST: u8 = 128;

/// Reserves any memory segment.
pub const RELOCATABLE_MEMORY_REQUEST: u8 = 129;

/// Frees a memory segment.
pub const MEMORY_FREE: u8 = 130;

/// Waits for a device.
pub const POLL: u8 = 131;

/// Waits for a flag.
pub const FLAG_WAIT: u8 = 132;

/// Sets a flag.
pub const FLAG_SET: u8 = 133;

/// Makes a message queue.
pub const MAKE_QUEUE: u8 = 134;

/// Opens a message queue.
pub const OPEN_QUEUE: u8 = 135;

/// Deletes a message queue.
pub const DELETE_QUEUE: u8 = 136;

/// Reads a message from a queue; waits for one.
pub const READ_QUEUE: u8 = 137;

/// Reads a message from a queue, if one is there.
pub const CONDITIONAL_READ_QUEUE: u8 = 138;

/// Writes a message to a queue; waits for room.
pub const WRITE_QUEUE: u8 = 139;

/// Writes a message to a queue, if there is room.
pub const CONDITIONAL_WRITE_QUEUE: u8 = 140;

/// Waits for ticks of the clock.
pub const DELAY: u8 = 141;

/// Gives up the processor to an equal.
pub const DISPATCH: u8 = 142;

/// Ends the process.
pub const TERMINATE_PROCESS: u8 = 143;

/// Makes processes.
pub const CREATE_PROCESS: u8 = 144;

/// Sets the priority of the process.
pub const SET_PRIORITY: u8 = 145;

/// Attaches the console; waits for it.
pub const ATTACH_CONSOLE: u8 = 146;

/// Detaches the console.
pub const DETACH_CONSOLE: u8 = 147;

/// Changes the console.
pub const SET_CONSOLE: u8 = 148;

/// Assigns a console to a process.
pub const ASSIGN_CONSOLE: u8 = 149;

/// Sends a command to the command line interpreter.
pub const SEND_CLI_COMMAND: u8 = 150;

/// Calls a resident procedure.
pub const CALL_RESIDENT_SYSTEM_PROCEDURE: u8 = 151;

/// Makes a file control block of a file name.
pub const PARSE_FILENAME: u8 = 152;

/// Tells the number of the console.
pub const GET_CONSOLE_NUMBER: u8 = 153;

/// Tells the address of the system data page.
pub const SYSTEM_DATA_ADDRESS: u8 = 154;

/// Tells the date, the time of the day and the second; the guide names it as it names 105.
pub const GET_DATE_TIME_AND_SECOND: u8 = 155;

/// Tells the address of the process's descriptor.
pub const RETURN_PROCESS_DESCRIPTOR_ADDRESS: u8 = 156;

/// Aborts a process.
pub const ABORT_SPECIFIED_PROCESS: u8 = 157;

/// Attaches the printer; waits for it.
pub const ATTACH_LIST: u8 = 158;

/// Detaches the printer.
pub const DETACH_LIST: u8 = 159;

/// Changes the printer.
pub const SET_LIST: u8 = 160;

/// Attaches the printer, if it is free.
pub const CONDITIONAL_ATTACH_LIST: u8 = 161;

/// Attaches the console, if it is free.
pub const CONDITIONAL_ATTACH_CONSOLE: u8 = 162;

/// Tells the version of the system.
pub const RETURN_MPM_VERSION_NUMBER: u8 = 163;

/// Tells the number of the printer.
pub const GET_LIST_NUMBER: u8 = 164;
